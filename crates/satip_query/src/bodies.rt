//! The bodies of refusals.

ghost use Rattle.std.specs.Prelude.{◌≡◌, ◌≤◌, ◌++◌, length};
ghost use Rattle.satip_base.specs.Output.{Wrote};
ghost use Rattle.satip_tune.specs.Words.{key_text};
ghost use Rattle.satip_query.specs.Bodies.{body_part, body_text, number_line};

use satip_base::Out;
use satip_tune::Key;

/// The reason of a refusal, as the body of its reply has it.
#[derive(Clone, Copy, Debug, PartialEq, Eq)]
pub enum RefusalBody {
    /// The key's value is malformed, or the key occurs twice, or it is required and missing.
    CheckSyntax(Key),
    /// The key's value isn't allowed, or it is `delpids` for a stream that selects all PIDs.
    OutOfRange(Key),
    /// The session doesn't own the stream that it would change.
    NotOwner,
    /// More than 256 PIDs would be selected.
    NoMorePids,
    /// No session can be created.
    NoMoreSessions,
    /// No front end is available.
    NoMoreFrontends,
}

impl RefusalBody {
    /// Returns the number of bytes of its text: at most 20.
    #[tactic(auto, unfolding(crate::specs::Bodies::body_text))]
    pub fn size(&self) -> usize
        ensures size { result ≡ length (body_text self.now) }
        ensures short { result ≤ 20 }
    {
        match *self {
            RefusalBody::CheckSyntax(key) => 13 + key_size(key),
            RefusalBody::OutOfRange(key) => 13 + key_size(key),
            RefusalBody::NotOwner => 16,
            RefusalBody::NoMorePids => 12,
            RefusalBody::NoMoreSessions => 16,
            RefusalBody::NoMoreFrontends => 17,
        }
    }

    /// Appends its text to the reply.
    #[tactic(auto, unfolding(crate::specs::Bodies::body_text))]
    pub fn write(&self, out: &mut Out)
        requires room { length (body_text self.now) ≤ out.old.reply_spare }
        ensures wrote { Wrote out.old (body_text self.now) out.new }
    {
        match *self {
            RefusalBody::CheckSyntax(key) => write_fault(b"Check-Syntax:", key, out),
            RefusalBody::OutOfRange(key) => write_fault(b"Out-of-Range:", key, out),
            RefusalBody::NotOwner => out.write(b"Not-Owner:stream"),
            RefusalBody::NoMorePids => out.write(b"No-More:pids"),
            RefusalBody::NoMoreSessions => out.write(b"No-More:sessions"),
            RefusalBody::NoMoreFrontends => out.write(b"No-More:frontends"),
        }
    }
}

#[tactic(auto, unfolding(satip_tune::specs::Words::key_text))]
fn key_size(key: Key) -> usize
    ensures size { result ≡ length (key_text key) }
    ensures short { result ≤ 7 }
{
    key.text().len()
}

fn write_fault(kind: &[u8], key: Key, out: &mut Out)
    requires room { length (kind.now ++ key_text key) ≤ out.old.reply_spare }
    ensures wrote { Wrote out.old (kind.now ++ key_text key) out.new }
{
    out.write(kind);
    out.write(key.text());
}

/// Appends the rest of a refusal after its first lines: the header lines of the body, an empty
/// line, and the text as one line.
#[tactic(auto, unfolding(crate::specs::Bodies::body_part))]
pub fn write_body(body: RefusalBody, out: &mut Out)
    requires room { length (body_part body) ≤ out.old.reply_spare }
    ensures wrote { Wrote out.old (body_part body) out.new }
{
    out.write(b"Content-Type: text/parameters\r\n");
    write_number_line(b"Content-Length: ", body.size() as u64 + 2, out);
    out.write(b"\r\n");
    body.write(out);
    out.write(b"\r\n");
}

/// Appends a line of a name and a number.
pub fn write_number_line(name: &[u8], number: u64, out: &mut Out)
    requires room { length (number_line name.now number) ≤ out.old.reply_spare }
    ensures wrote { Wrote out.old (number_line name.now number) out.new }
{
    out.write(name);
    out.write_number(number);
    out.write(b"\r\n");
}
