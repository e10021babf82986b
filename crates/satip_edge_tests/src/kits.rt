//! Kits over loopback.

use crate::checks::check;
use crate::sockets::{LOCALHOST, listen};
use satip_base::Text;
use satip_config::Config;
use satip_datagrams::RealOutlet;
use satip_desk::{JobKits, WorkerKit};
use satip_fixtures::config_with;
use satip_playout::RealPacer;
use satip_real::{Carried, RealDoors};
use satip_real_desk::{KitsFault, Settings, real_kits};
use satip_world::{Door, Doors};
use std::alloc::Global;
use std::env::{Env, FillError};
use std::process::Abort;
use std::sync::Wait;
use std::thread;
use std::thread::Threads;

// A configuration for loopback with two workers and no front end, and what stands in place of its
// kits.
#[derive(Clone, Copy)]
struct Row {
    name: &'static str,
    address: u32,
    // The name of the one recording, or "" for none.
    recording: &'static str,
    // Whether the port for RTSP, and that for HTTP, is one in use, and not a free one.
    used: (bool, bool),
    // The kind of the fault, and how its text starts.
    fault: &'static str,
    start: &'static str,
}

const NO_FAULT: Row = Row {
    name: "no recording",
    address: LOCALHOST,
    recording: "",
    used: (false, false),
    fault: "none",
    start: "",
};

const ROWS: &[Row] = &[
    NO_FAULT,
    Row {
        name: "a missing recording",
        recording: "no/such/recording.ts",
        ..NO_FAULT
    },
    Row {
        name: "a directory",
        recording: "/",
        ..NO_FAULT
    },
    Row {
        name: "a device",
        recording: "/dev/null",
        ..NO_FAULT
    },
    Row {
        name: "an address that is not ours",
        address: 0xc000_0201,
        fault: "RTSP port",
        start: "RTSP port: ",
        ..NO_FAULT
    },
    Row {
        name: "a port for RTSP in use",
        used: (true, false),
        fault: "RTSP port",
        start: "RTSP port: ",
        ..NO_FAULT
    },
    Row {
        name: "a port for HTTP in use",
        used: (false, true),
        fault: "HTTP port",
        start: "HTTP port: ",
        ..NO_FAULT
    },
];

// The ports in use for RTSP and for HTTP.
type Used = (u16, u16);

fn make_config(rt: &impl Abort, alloc: Global, row: &Row, used: Used) -> Config {
    let config = config_with(alloc, 0, &[]).expect(rt, "out of memory");
    Config {
        address: row.address,
        rtsp_port: if row.used.0 { used.0 } else { 0 },
        http_port: if row.used.1 { used.1 } else { 0 },
        workers: 2,
        ..config
    }
}

// Returns the configuration of a row.
fn config_of(rt: &impl Abort, alloc: Global, row: &Row, used: Used) -> Config {
    let mut config = make_config(rt, alloc, row, used);
    if !row.recording.is_empty() {
        let name = Text::of(alloc, row.recording).expect(rt, "out of memory");
        config.files.push(name).expect(rt, "out of memory");
    }
    config
}

// Returns what stands in place of the kits.
fn fault_of<R: Wait + Threads + Copy + Drop>(
    host: HostRuntime,
    rt: R,
    config: &Config,
) -> Option<KitsFault> {
    real_kits(host, rt, config, 1, Carried::Replies, b"").err()
}

fn kind_of(fault: &Option<KitsFault>) -> &'static str {
    match fault {
        None => "none",
        Some(KitsFault::RtspPort(_)) => "RTSP port",
        Some(KitsFault::HttpPort(_)) => "HTTP port",
        Some(_) => "another",
    }
}

fn text_of(rt: &impl Abort, alloc: Global, fault: Option<KitsFault>) -> String {
    match fault {
        Some(fault) => format!(in alloc; "{fault}").expect(rt, "out of memory"),
        None => String::new(alloc),
    }
}

fn check_row(rt: &impl Abort, alloc: Global, fault: Option<KitsFault>, row: &Row) {
    check(rt, row.name, kind_of(&fault), row.fault);
    let text = text_of(rt, alloc, fault);
    let (name, text) = (row.name, text.as_str());
    assert!(rt; text.starts_with(row.start), "{name}: {text}");
}

#[test]
fn a_fault_stands_in_place_of_kits(rt: HostRuntime) {
    let listeners = listen(&rt, rt);
    let rtsp_port = listeners.rtsp_port().expect(&rt, "port");
    let http_port = listeners.http_port().expect(&rt, "port");
    for row in ROWS {
        let config = config_of(&rt, rt.alloc(), row, (rtsp_port, http_port));
        check_row(&rt, rt.alloc(), fault_of(rt, rt, &config), row);
    }
}

// An environment of one variable.
#[derive(Drop)]
struct OneVar<'a> {
    name: &'a str,
    value: &'a str,
}

impl Env for OneVar<'_> {
    fn arg(&self, _i: usize, _buf: &mut [u8]) -> Result<usize, FillError> {
        Err(FillError::NotPresent)
    }

    fn var(&self, name: &str, buf: &mut [u8]) -> Result<usize, FillError> {
        if name != self.name {
            return Err(FillError::NotPresent);
        }
        let value = self.value.as_bytes();
        match buf.get_mut(..value.len()) {
            Some(front) => {
                front.copy_from_slice(value);
                Ok(value.len())
            }
            None => Err(FillError::TooLong),
        }
    }

    fn var_at(&self, _i: usize, _buf: &mut [u8]) -> Result<usize, FillError> {
        Err(FillError::NotPresent)
    }
}

fn settings(name: &str, value: &str) -> Option<(bool, bool)> {
    let settings = Settings::read(&OneVar { name, value }).ok()?;
    Some((settings.paces, settings.repeats))
}

// A row's name, a variable and its value; whether the server follows a recording's clock, and
// whether it repeats recordings.
const SETTINGS: &[(&str, &str, &str, Option<(bool, bool)>)] = &[
    ("pace", "SATIP_PACE", "recording", Some((true, false))),
    ("no pace", "SATIP_PACE", "", Some((false, false))),
    ("another case", "SATIP_PACE", "Recording", None),
    ("more", "SATIP_PACE", "recording and more", None),
    ("repeat", "SATIP_REPEAT", "1", Some((false, true))),
    ("no repeat", "SATIP_REPEAT", "", Some((false, false))),
    ("zero", "SATIP_REPEAT", "0", None),
    ("another variable", "PATH", "1", Some((false, false))),
];

#[test]
fn settings_have_one_value_each(rt: HostRuntime) {
    for (row, name, value, wanted) in SETTINGS {
        check(&rt, row, settings(name, value), *wanted);
    }
}

// Turns of all doors, each once. Returns the number of those that are idle.
fn turn_all<R: Wait + Drop>(
    workers: Vec<WorkerKit<RealDoors, RealOutlet<R>, RealPacer<R>>>,
) -> usize {
    let mut idle = 0usize;
    for mut kit in workers {
        if matches!(kit.doors.next(), Door::Idle) {
            idle = idle.saturating_add(1);
        }
    }
    idle
}

#[test]
fn kits_go_to_other_threads(rt: HostRuntime) {
    let config = make_config(&rt, rt.alloc(), &NO_FAULT, (0, 0));
    let Ok(jobs) = real_kits(rt, rt, &config, 1, Carried::Replies, b"") else {
        panic!(rt; "no kits");
    };
    let JobKits {
        workers,
        pumps,
        tick,
    } = jobs;
    let doors = thread::spawn(&rt, move || turn_all(workers)).expect(&rt, "thread");
    let others = thread::spawn(&rt, move || {
        drop(tick);
        pumps.len()
    })
    .expect(&rt, "thread");
    check(&rt, "idle doors", doors.join(&rt), 2);
    check(&rt, "pumps", others.join(&rt), 0);
}
