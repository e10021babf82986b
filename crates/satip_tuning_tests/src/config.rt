//! Configurations and their faults by example.

use crate::checks::check;
use satip_base::Strip;
use satip_config::*;
use satip_fixtures::texts::{joined, repeated};
use satip_fixtures::{FIRST_MUX, SECOND_MUX, front_end};
use std::alloc::{AllocError, Global};
use std::process::Abort;
use std::test::Fail;

const ADDRESS: &[u8] = b"address = \"192.168.1.10\"\n";

const FRONT: &[u8] = b"[[frontend]]\nsources = [1]\nsystems = [\"dvbs\", \"dvbs2\"]\n";

const TUNED: &[u8] =
    b"[[mux]]\nsrc = 1\nfreq = \"11361.75\"\npol = \"h\"\nmsys = \"dvbs2\"\nsr = 22000\n";

const MUX: &[u8] = b"[[mux]]\n\
    src = 1\n\
    freq = \"12402\"\n\
    pol = \"v\"\n\
    msys = \"dvbs\"\n\
    sr = 27500\n\
    file = \"b.ts\"\n";

const DOCUMENT: &[(&str, &str)] = &[
    ("other = 1.5\n", ""),
    ("rtsp_port = 0\n", "value of rtsp_port"),
    ("rtsp_port = 1\n", ""),
    ("rtsp_port = 65535\n", ""),
    ("rtsp_port = 65536\n", "value of rtsp_port"),
    ("http_port = 65536\n", "value of http_port"),
    ("http_port = \"8875\"\n", "shape of http_port"),
    ("timeout = 5\n", "value of timeout"),
    ("timeout = 9\n", "value of timeout"),
    ("timeout = 10\n", ""),
    ("timeout = 3600\n", ""),
    ("timeout = 3601\n", "value of timeout"),
    ("timeout = -60\n", "value of timeout"),
    ("timeout = 60.0\n", "shape of timeout"),
    ("timeout = true\n", "shape of timeout"),
    ("timeout = 2026-11-27\n", "shape of timeout"),
    ("timeout = { }\n", "shape of timeout"),
    ("workers = 65\ntimeout = \"x\"\n", "shape of timeout"),
    ("timeout = 5\nrtsp_port = \"x\"\n", "shape of rtsp_port"),
    ("workers = 0\n", "value of workers"),
    ("workers = 64\n", ""),
    ("mux = []\n", ""),
    ("mux = 1\n", "shape of mux"),
    ("mux = [1]\n", "shape of mux"),
    ("mux = { }\n", "shape of mux"),
    ("rtsp_port = \"1\"\n", "shape of rtsp_port"),
    ("rtsp_port = 1.0\n", "shape of rtsp_port"),
    ("rtsp_port = true\n", "shape of rtsp_port"),
    ("rtsp_port = 2026-11-27\n", "shape of rtsp_port"),
    ("rtsp_port = { }\n", "shape of rtsp_port"),
    ("rtsp_port = [1]\n", "shape of rtsp_port"),
    ("http_port = \"1\"\n", "shape of http_port"),
    ("http_port = 1.0\n", "shape of http_port"),
    ("http_port = true\n", "shape of http_port"),
    ("http_port = 2026-11-27\n", "shape of http_port"),
    ("http_port = { }\n", "shape of http_port"),
    ("http_port = [1]\n", "shape of http_port"),
    ("workers = \"1\"\n", "shape of workers"),
    ("workers = 1.0\n", "shape of workers"),
    ("workers = true\n", "shape of workers"),
    ("workers = 2026-11-27\n", "shape of workers"),
    ("workers = { }\n", "shape of workers"),
    ("workers = [1]\n", "shape of workers"),
    ("timeout = \"60\"\n", "shape of timeout"),
    ("timeout = [60]\n", "shape of timeout"),
    ("http_port = 0\n", "value of http_port"),
    ("http_port = 1\n", ""),
    ("http_port = 65535\n", ""),
    ("workers = 1\n", ""),
    ("workers = 65\n", "value of workers"),
    ("workers = -1\n", "value of workers"),
    ("mux = \"x\"\n", "shape of mux"),
    ("mux = 1.5\n", "shape of mux"),
    ("mux = true\n", "shape of mux"),
    ("mux = 2026-11-27\n", "shape of mux"),
    ("timeout = 60\ntimeout = 60\n", "not toml"),
    ("timeout 60\n", "not toml"),
];

const HEADS: &[(&str, &str)] = &[
    ("", "shape of address"),
    ("address = 1\n", "shape of address"),
    ("address = 1.5\n", "shape of address"),
    ("address = true\n", "shape of address"),
    ("address = 2026-11-27\n", "shape of address"),
    ("address = { }\n", "shape of address"),
    ("address = [\"1.2.3.4\"]\n", "shape of address"),
    ("address = \"1.2.3.4\"\nfrontend = 1\n", "shape of frontend"),
    (
        "address = \"1.2.3.4\"\nfrontend = \"x\"\n",
        "shape of frontend",
    ),
    (
        "address = \"1.2.3.4\"\nfrontend = 1.5\n",
        "shape of frontend",
    ),
    (
        "address = \"1.2.3.4\"\nfrontend = true\n",
        "shape of frontend",
    ),
    (
        "address = \"1.2.3.4\"\nfrontend = 2026-11-27\n",
        "shape of frontend",
    ),
    ("address = \"192.168.1\"\n", "value of address"),
    (
        "address = \"192.168.1.256\"\ntimeout = 5\n",
        "value of address",
    ),
    ("address = \"1.2.3.4\"\n", "shape of frontend"),
    (
        "address = \"1.2.3.4\"\nfrontend = []\n",
        "value of frontend",
    ),
    ("address = \"1.2.3.4\"\n[frontend]\n", "shape of frontend"),
    (
        "address = \"1.2.3.4\"\nfrontend = [1]\n",
        "shape of frontend",
    ),
    (
        "address = \"1.2.3.4\"\nfrontend = [{ sources = [2], systems = [\"dvbs\"] }]\n",
        "",
    ),
];

const FRONTS: &[(&str, &str)] = &[
    ("", "shape of frontend.2.sources"),
    ("sources = 1\n", "shape of frontend.2.sources"),
    ("sources = [1]\n", "shape of frontend.2.systems"),
    ("sources = \"1\"\n", "shape of frontend.2.sources"),
    ("sources = 1.5\n", "shape of frontend.2.sources"),
    ("sources = true\n", "shape of frontend.2.sources"),
    ("sources = 2026-11-27\n", "shape of frontend.2.sources"),
    ("sources = { }\n", "shape of frontend.2.sources"),
    ("sources = [1.0]\n", "shape of frontend.2.sources"),
    ("sources = [true]\n", "shape of frontend.2.sources"),
    (
        "sources = [1]\nsystems = \"dvbs\"\n",
        "shape of frontend.2.systems",
    ),
    (
        "sources = [1]\nsystems = 1.5\n",
        "shape of frontend.2.systems",
    ),
    (
        "sources = [1]\nsystems = true\n",
        "shape of frontend.2.systems",
    ),
    (
        "sources = [1]\nsystems = 2026-11-27\n",
        "shape of frontend.2.systems",
    ),
    (
        "sources = [1]\nsystems = { }\n",
        "shape of frontend.2.systems",
    ),
    (
        "sources = [1]\nsystems = [1]\n",
        "shape of frontend.2.systems",
    ),
    (
        "sources = [1]\nsystems = [true]\n",
        "shape of frontend.2.systems",
    ),
    ("sources = []\n", "value of frontend.2.sources"),
    ("sources = [0]\n", "value of frontend.2.sources"),
    ("sources = [256]\n", "value of frontend.2.sources"),
    ("sources = [300, \"x\"]\n", "shape of frontend.2.sources"),
    (
        "sources = [255, 255]\nsystems = 1\n",
        "shape of frontend.2.systems",
    ),
    (
        "sources = [1]\nsystems = []\n",
        "value of frontend.2.systems",
    ),
    (
        "sources = [1]\nsystems = [\"dvbt\", 1]\n",
        "shape of frontend.2.systems",
    ),
    (
        "sources = [1]\nsystems = [\"dvbt\"]\n",
        "value of frontend.2.systems",
    ),
    ("sources = [1]\nsystems = [\"dvbs\", \"dvbs\"]\n", ""),
    (
        "sources = [1]\nsystems = [\"dvbs\", \"dvbs\", \"dvbs\"]\n",
        "value of frontend.2.systems",
    ),
];

const MULTIPLEXES: &[(&str, &str)] = &[
    ("", "shape of mux.2.src"),
    ("src = \"1\"\n", "shape of mux.2.src"),
    ("src = 1.5\n", "shape of mux.2.src"),
    ("src = true\n", "shape of mux.2.src"),
    ("src = 2026-11-27\n", "shape of mux.2.src"),
    ("src = { }\n", "shape of mux.2.src"),
    ("src = [1]\n", "shape of mux.2.src"),
    ("src = 1\nfreq = 1\n", "shape of mux.2.freq"),
    ("src = 1\nfreq = 1.5\n", "shape of mux.2.freq"),
    ("src = 1\nfreq = true\n", "shape of mux.2.freq"),
    ("src = 1\nfreq = 2026-11-27\n", "shape of mux.2.freq"),
    ("src = 1\nfreq = { }\n", "shape of mux.2.freq"),
    ("src = 1\nfreq = [\"x\"]\n", "shape of mux.2.freq"),
    ("src = 1\nfreq = \"1\"\npol = 1\n", "shape of mux.2.pol"),
    ("src = 1\nfreq = \"1\"\npol = 1.5\n", "shape of mux.2.pol"),
    ("src = 1\nfreq = \"1\"\npol = true\n", "shape of mux.2.pol"),
    (
        "src = 1\nfreq = \"1\"\npol = 2026-11-27\n",
        "shape of mux.2.pol",
    ),
    ("src = 1\nfreq = \"1\"\npol = { }\n", "shape of mux.2.pol"),
    (
        "src = 1\nfreq = \"1\"\npol = [\"x\"]\n",
        "shape of mux.2.pol",
    ),
    (
        "src = 1\nfreq = \"1\"\npol = \"r\"\nmsys = 1\n",
        "shape of mux.2.msys",
    ),
    (
        "src = 1\nfreq = \"1\"\npol = \"r\"\nmsys = 1.5\n",
        "shape of mux.2.msys",
    ),
    (
        "src = 1\nfreq = \"1\"\npol = \"r\"\nmsys = true\n",
        "shape of mux.2.msys",
    ),
    (
        "src = 1\nfreq = \"1\"\npol = \"r\"\nmsys = 2026-11-27\n",
        "shape of mux.2.msys",
    ),
    (
        "src = 1\nfreq = \"1\"\npol = \"r\"\nmsys = { }\n",
        "shape of mux.2.msys",
    ),
    (
        "src = 1\nfreq = \"1\"\npol = \"r\"\nmsys = [\"x\"]\n",
        "shape of mux.2.msys",
    ),
    (
        "src = 1\nfreq = \"1\"\npol = \"r\"\nmsys = \"dvbs\"\nsr = \"1\"\n",
        "shape of mux.2.sr",
    ),
    (
        "src = 1\nfreq = \"1\"\npol = \"r\"\nmsys = \"dvbs\"\nsr = 1.5\n",
        "shape of mux.2.sr",
    ),
    (
        "src = 1\nfreq = \"1\"\npol = \"r\"\nmsys = \"dvbs\"\nsr = true\n",
        "shape of mux.2.sr",
    ),
    (
        "src = 1\nfreq = \"1\"\npol = \"r\"\nmsys = \"dvbs\"\nsr = 2026-11-27\n",
        "shape of mux.2.sr",
    ),
    (
        "src = 1\nfreq = \"1\"\npol = \"r\"\nmsys = \"dvbs\"\nsr = { }\n",
        "shape of mux.2.sr",
    ),
    (
        "src = 1\nfreq = \"1\"\npol = \"r\"\nmsys = \"dvbs\"\nsr = [1]\n",
        "shape of mux.2.sr",
    ),
    (
        "src = 1\nfreq = \"1\"\npol = \"r\"\nmsys = \"dvbs\"\nsr = 1\nfile = 1\n",
        "shape of mux.2.file",
    ),
    (
        "src = 1\nfreq = \"1\"\npol = \"r\"\nmsys = \"dvbs\"\nsr = 1\nfile = 1.5\n",
        "shape of mux.2.file",
    ),
    (
        "src = 1\nfreq = \"1\"\npol = \"r\"\nmsys = \"dvbs\"\nsr = 1\nfile = true\n",
        "shape of mux.2.file",
    ),
    (
        "src = 1\nfreq = \"1\"\npol = \"r\"\nmsys = \"dvbs\"\nsr = 1\nfile = 2026-11-27\n",
        "shape of mux.2.file",
    ),
    (
        "src = 1\nfreq = \"1\"\npol = \"r\"\nmsys = \"dvbs\"\nsr = 1\nfile = { }\n",
        "shape of mux.2.file",
    ),
    (
        "src = 1\nfreq = \"1\"\npol = \"r\"\nmsys = \"dvbs\"\nsr = 1\nfile = [\"x\"]\n",
        "shape of mux.2.file",
    ),
    ("src = 1\nfreq = \"99999.999\"\n", "shape of mux.2.pol"),
    ("src = 1\nfreq = \"100000\"\n", "value of mux.2.freq"),
    ("src = 1\nfreq = \"x\"\n", "value of mux.2.freq"),
    ("src = 1\nfreq = \"1\"\npol = \"x\"\n", "value of mux.2.pol"),
    (
        "src = 1\nfreq = \"1\"\npol = \"r\"\nmsys = \"dvbs\"\n",
        "shape of mux.2.sr",
    ),
    ("src = 0\n", "value of mux.2.src"),
    ("src = 256\n", "value of mux.2.src"),
    ("src = 255\n", "shape of mux.2.freq"),
    ("src = 1\nfreq = 12402\n", "shape of mux.2.freq"),
    ("src = 1\nfreq = \"0.999999\"\n", "value of mux.2.freq"),
    ("src = 1\nfreq = \"1.5.5\"\n", "value of mux.2.freq"),
    ("src = 1\nfreq = \"1\"\n", "shape of mux.2.pol"),
    (
        "src = 1\nfreq = \"1\"\nmsys = 1\npol = \"H\"\n",
        "value of mux.2.pol",
    ),
    (
        "src = 1\nfreq = \"1\"\nmsys = \"x\"\npol = 1\n",
        "shape of mux.2.pol",
    ),
    (
        "src = 1\nfreq = \"1\"\npol = \"r\"\n",
        "shape of mux.2.msys",
    ),
    (
        "src = 1\nfreq = \"1\"\npol = \"r\"\nmsys = \"dvbt\"\n",
        "value of mux.2.msys",
    ),
    (
        "src = 1\nfreq = \"1\"\npol = \"l\"\nmsys = \"dvbs\"\nsr = 0\n",
        "value of mux.2.sr",
    ),
    (
        "src = 1\nfreq = \"1\"\npol = \"l\"\nmsys = \"dvbs\"\nsr = 100000\n",
        "value of mux.2.sr",
    ),
    (
        "src = 1\nfreq = \"1\"\npol = \"l\"\nmsys = \"dvbs\"\nsr = 99999\n",
        "shape of mux.2.file",
    ),
];

// Prints the fault of a text; nothing if it is read.
fn fault_of(alloc: Global, text: &[u8]) -> Result<String, AllocError> {
    match read_config(alloc, text) {
        Ok(_) => Ok(String::new(alloc)),
        Err(fault) => format!(in alloc; "{fault}"),
    }
}

// Asserts which fault a text has.
fn check_fault(rt: &impl Abort, alloc: Global, text: &[u8], wanted: &str, lines: &str) {
    let printed = fault_of(alloc, text).expect(rt, "out of memory");
    check(rt, lines, &printed.as_str(), &wanted);
}

// Asserts which fault the lines of each row have between these texts.
fn check_rows(
    rt: &impl Abort,
    alloc: Global,
    before: &[u8],
    rows: &[(&str, &str)],
    after: &[u8],
) -> Result<(), Fail> {
    for (lines, wanted) in rows {
        let text = joined(alloc, &[before, lines.as_bytes(), after])?;
        check_fault(rt, alloc, &text, wanted, lines);
    }
    Ok(())
}

#[test]
fn keys_of_the_document(rt: HostRuntime) -> Result<(), Fail> {
    let after = joined(rt.alloc(), &[ADDRESS, FRONT])?;
    check_rows(&rt, rt.alloc(), b"", DOCUMENT, &after)
}

#[test]
fn addresses_and_first_front_ends(rt: HostRuntime) -> Result<(), Fail> {
    check_rows(&rt, rt.alloc(), b"", HEADS, b"")
}

#[test]
fn keys_of_a_front_end(rt: HostRuntime) -> Result<(), Fail> {
    let before = joined(rt.alloc(), &[ADDRESS, FRONT, b"[[frontend]]\n"])?;
    check_rows(&rt, rt.alloc(), &before, FRONTS, b"")
}

#[test]
fn keys_of_a_multiplex(rt: HostRuntime) -> Result<(), Fail> {
    let before = joined(rt.alloc(), &[ADDRESS, FRONT, MUX, b"[[mux]]\n"])?;
    check_rows(&rt, rt.alloc(), &before, MULTIPLEXES, b"")
}

// Asserts the values of a configuration, whose ports, timeout and workers aren't given.
fn check_values(rt: &impl Abort, config: &Config) {
    assert_eq!(rt; config.address, 0xC0A8_010A);
    assert_eq!(rt; (config.rtsp_port, config.http_port), (554, 8875));
    assert_eq!(rt; (config.timeout, config.workers), (60, 8));
}

// Asserts that a configuration has two front ends, and two multiplexes with their files.
fn check_lists(rt: &impl Abort, config: &Config) {
    assert_eq!(rt;
        config.fronts.as_slice(),
        [front_end(1), front_end(2)].as_slice()
    );
    assert_eq!(rt; config.muxes.as_slice(), [FIRST_MUX, SECOND_MUX].as_slice());
    assert_eq!(rt; config.files.len(), 2);
    for (file, name) in config.files.iter().zip([b"a.ts".as_slice(), b"b.ts"]) {
        assert_eq!(rt; file.bytes(), name);
    }
}

#[test]
fn a_whole_configuration_is_read(rt: HostRuntime) -> Result<(), Fail> {
    let pieces: &[&[u8]] = &[ADDRESS, FRONT, FRONT, TUNED, b"file = \"a.ts\"\n", MUX];
    let text = joined(rt.alloc(), pieces)?;
    match read_config(rt.alloc(), &text) {
        Ok(config) => {
            check_values(&rt, &config);
            check_lists(&rt, &config);
        }
        Err(fault) => panic!(rt; "{fault}"),
    }
    Ok(())
}

// Texts of these pieces, each this number of times, and their faults.
const REPEATED: &[(&str, &[(&[u8], usize)], &str)] = &[
    (
        "a name of a file without a byte",
        &[
            (ADDRESS, 1),
            (FRONT, 1),
            (TUNED, 1),
            (b"file = \"", 1),
            (b"a", 0),
            (b"\"\n", 1),
        ],
        "value of mux.1.file",
    ),
    (
        "a name of a file of 1 byte",
        &[
            (ADDRESS, 1),
            (FRONT, 1),
            (TUNED, 1),
            (b"file = \"", 1),
            (b"a", 1),
            (b"\"\n", 1),
        ],
        "",
    ),
    (
        "a name of a file of 255 bytes",
        &[
            (ADDRESS, 1),
            (FRONT, 1),
            (TUNED, 1),
            (b"file = \"", 1),
            (b"a", 255),
            (b"\"\n", 1),
        ],
        "",
    ),
    (
        "a name of a file of 256 bytes",
        &[
            (ADDRESS, 1),
            (FRONT, 1),
            (TUNED, 1),
            (b"file = \"", 1),
            (b"a", 256),
            (b"\"\n", 1),
        ],
        "value of mux.1.file",
    ),
    (
        "16 front ends and 256 multiplexes",
        &[(ADDRESS, 1), (FRONT, 16), (MUX, 256)],
        "",
    ),
    (
        "17 front ends",
        &[(ADDRESS, 1), (FRONT, 17), (MUX, 0)],
        "value of frontend",
    ),
    (
        "257 multiplexes",
        &[(ADDRESS, 1), (FRONT, 1), (MUX, 257)],
        "value of mux",
    ),
    (
        "255 sources",
        &[
            (ADDRESS, 1),
            (b"[[frontend]]\nsources = [", 1),
            (b"1, ", 255),
            (b"]\nsystems = [\"dvbs2\"]\n", 1),
        ],
        "",
    ),
    (
        "256 sources",
        &[
            (ADDRESS, 1),
            (b"[[frontend]]\nsources = [", 1),
            (b"1, ", 256),
            (b"]\nsystems = [\"dvbs2\"]\n", 1),
        ],
        "value of frontend.1.sources",
    ),
    ("a mebibyte", &[(b"#", 1_048_576)], "shape of address"),
    (
        "a byte more than a mebibyte",
        &[(b"#", 1_048_577)],
        "too long",
    ),
    ("a text that is not UTF-8", &[(b"# \xFF\n", 1)], "not toml"),
];

#[test]
fn names_lists_and_texts_have_limits(rt: HostRuntime) -> Result<(), Fail> {
    for (name, parts, wanted) in REPEATED {
        let text = repeated(rt.alloc(), parts)?;
        check_fault(&rt, rt.alloc(), &text, wanted, name);
    }
    Ok(())
}

#[test]
fn faults_are_printed(rt: HostRuntime) {
    let mut strip = Strip::new();
    ConfigFault::Value(ConfigKey::mux(256, ConfigName::Freq)).print(&mut strip);
    assert_eq!(rt; strip.bytes(), b"value of mux.256.freq".as_slice());
    strip.write(b", ");
    ConfigFault::Shape(ConfigKey::top(ConfigName::RtspPort)).print(&mut strip);
    assert_eq!(rt;
        strip.bytes(),
        b"value of mux.256.freq, shape of rtsp_port".as_slice()
    );
}
