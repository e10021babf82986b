//! Prints a verdict in one line.

ghost use Rattle.std.specs.Prelude.{◌≡◌, ◌≤◌, ◌++◌, codes, decimal, length};
ghost use Rattle.satip_audit.specs.Printed.{verdict_text};

use crate::verdicts::Verdict;
use satip_base::Strip;

/// Returns a verdict as one line: `no start`, `no repeated P`, `no missing P`, `no differs P` or
/// `yes N`, with the LF that ends it.
pub fn print_verdict(verdict: Verdict) -> Strip
    ensures text { result ≡ verdict_text verdict }
{
    match verdict {
        Verdict::NoStart => print_words(b"no start\n"),
        Verdict::Repeated(place) => print_number(b"no repeated ", place),
        Verdict::Missing(place) => print_number(b"no missing ", place),
        Verdict::Differs(place) => print_number(b"no differs ", place),
        Verdict::Yes(count) => print_number(b"yes ", count),
    }
}

fn print_words(words: &[u8]) -> Strip
    requires short { length words.now ≤ 20 }
    ensures text { result ≡ words.now }
{
    let mut strip = Strip::new();
    strip.write(words);
    strip
}

// Returns words, a number after them, and LF.
#[tactic(auto, using(satip_base::proofs::NumberLemmas::digit_bounds))]
fn print_number(words: &[u8], number: u64) -> Strip
    requires short { length words.now ≤ 20 }
    ensures text { result ≡ words.now ++ decimal number ++ codes "\n" }
{
    let mut strip = print_words(words);
    strip.write_number(number);
    strip.write(b"\n");
    strip
}
