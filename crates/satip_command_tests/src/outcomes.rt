//! The status and the line of each outcome.

use crate::checks::check;
use satip_base::Strip;
use satip_config::{ConfigFault, ConfigKey, ConfigName, ConfigTable, Outcome};

// The program's exit statuses, and the last lines on standard error.
const ROWS: &[(Outcome, u8, &[u8])] = &[
    (Outcome::Done, 0, b""),
    (
        Outcome::Configuration(ConfigFault::NotToml),
        3,
        b"configuration: not toml\n",
    ),
    (
        Outcome::Configuration(ConfigFault::Value(ConfigKey {
            table: ConfigTable::Mux,
            number: 1,
            name: ConfigName::Freq,
        })),
        3,
        b"configuration: value of mux.1.freq\n",
    ),
    (Outcome::Script(2), 4, b"script: line 2\n"),
    (Outcome::Journals(67108864), 4, b"journal: line 67108864\n"),
    (Outcome::InputFault, 5, b"input fault\n"),
    (Outcome::OutputFault, 6, b"output fault\n"),
    (Outcome::DoorsFault, 7, b"doors fault\n"),
    (Outcome::TooLong, 8, b"input too long\n"),
    (Outcome::HistoryFull, 9, b"history full\n"),
    (Outcome::Refused(503), 10, b"refused 503\n"),
    (Outcome::BadReply, 11, b"bad reply\n"),
    (Outcome::Silent, 12, b"silent\n"),
    (Outcome::PeerFault, 13, b"peer fault\n"),
    (Outcome::Closed, 14, b"closed\n"),
    (Outcome::OutOfMemory, 70, b"out of memory\n"),
];

#[test]
fn outcomes_have_their_statuses_and_lines(rt: HostRuntime) {
    for &(outcome, status, line) in ROWS {
        let mut printed = Strip::new();
        outcome.print(&mut printed);
        check(
            &rt,
            "outcome",
            (outcome.status(), printed.bytes()),
            (status, line),
        );
    }
}
