//! Tunings, words and frequencies by example.

use crate::checks::check;
use satip_fixtures::{FIRST_MUX, FIRST_TUNING};
use satip_tune::*;

const NOTHING: Change = Change {
    fe: None,
    src: None,
    freq: None,
    pol: None,
    ro: None,
    msys: None,
    mtype: None,
    plts: None,
    sr: None,
    fec: None,
};

#[test]
fn change_keeps_what_it_does_not_give(rt: HostRuntime) {
    let change = Change {
        fe: Some(2),
        pol: Some(Pol::V),
        plts: Some(false),
        ..NOTHING
    };
    let merged = merge(&FIRST_TUNING, &change);
    let wanted = Tuning {
        fe: Some(2),
        pol: Pol::V,
        plts: Some(false),
        ..FIRST_TUNING
    };
    assert_eq!(rt; merged, wanted);
    assert!(rt; change.any());
    assert!(rt; !NOTHING.any());
}

const TWO_KEYS: Change = Change {
    freq: Some(12402000),
    msys: Some(System::Dvbs),
    ..NOTHING
};

const THREE_KEYS: Change = Change {
    pol: Some(Pol::L),
    ..TWO_KEYS
};

const FOUR_KEYS: Change = Change {
    sr: Some(27500),
    ..THREE_KEYS
};

const OF_FOUR_KEYS: Tuning = Tuning {
    fe: None,
    src: 1,
    freq: 12402000,
    pol: Pol::L,
    ro: None,
    msys: System::Dvbs,
    mtype: None,
    plts: None,
    sr: 27500,
    fec: None,
};

const FIRST_TUNINGS: &[(Change, Result<Tuning, Key>)] = &[
    (NOTHING, Err(Key::Freq)),
    (TWO_KEYS, Err(Key::Pol)),
    (THREE_KEYS, Err(Key::Sr)),
    (FOUR_KEYS, Ok(OF_FOUR_KEYS)),
];

#[test]
fn first_tuning_needs_four_keys(rt: HostRuntime) {
    for (change, wanted) in FIRST_TUNINGS {
        assert_eq!(rt; first(change), *wanted);
    }
}

// Tunings, and whether they fit front end 2, which reaches position 1 and receives DVB-S2.
const FITTING: &[(&str, Tuning, bool)] = &[
    ("any front end", FIRST_TUNING, true),
    (
        "front end 2",
        Tuning {
            fe: Some(2),
            ..FIRST_TUNING
        },
        true,
    ),
    (
        "front end 1",
        Tuning {
            fe: Some(1),
            ..FIRST_TUNING
        },
        false,
    ),
    (
        "position 2",
        Tuning {
            src: 2,
            ..FIRST_TUNING
        },
        false,
    ),
    (
        "DVB-S",
        Tuning {
            msys: System::Dvbs,
            ..FIRST_TUNING
        },
        false,
    ),
];

#[test]
fn front_fits_by_source_system_and_number(rt: HostRuntime) {
    let mut sources = [false; 256];
    sources[1] = true;
    let front = Front {
        number: 2,
        sources,
        systems: [false, true],
    };
    for (name, tuning, fitting) in FITTING {
        check(&rt, name, &fits(&front, tuning), fitting);
    }
}

const MUXES: &[Mux] = &[
    Mux {
        freq: 11363751,
        ..FIRST_MUX
    },
    Mux {
        freq: 11363750,
        ..FIRST_MUX
    },
    Mux {
        freq: 11359750,
        ..FIRST_MUX
    },
    Mux {
        freq: 11361750,
        ..FIRST_MUX
    },
];

const LOWER: Tuning = Tuning {
    freq: 11357750,
    ..FIRST_TUNING
};

const VERTICAL: Tuning = Tuning {
    pol: Pol::V,
    ..FIRST_TUNING
};

const PLACES: &[(&[Mux], Tuning, Option<u16>)] = &[
    (MUXES, FIRST_TUNING, Some(2)),
    (MUXES, LOWER, Some(3)),
    (MUXES, VERTICAL, None),
    (&[], FIRST_TUNING, None),
];

#[test]
fn multiplex_is_the_first_within_2000_khz(rt: HostRuntime) {
    for (muxes, tuning, place) in PLACES {
        assert!(rt; muxes.len() <= 256);
        assert_eq!(rt; mux_of(muxes, tuning), *place);
    }
}

#[test]
fn polarisations_and_systems_are_compared_byte_for_byte(rt: HostRuntime) {
    assert_eq!(rt; [Pol::named(b"r"), Pol::named(b"H")], [Some(Pol::R), None]);
    assert_eq!(rt;
        [System::named(b"dvbs"), System::named(b"dvbt")],
        [Some(System::Dvbs), None]
    );
}

#[test]
fn words_of_the_signal_are_named(rt: HostRuntime) {
    assert_eq!(rt; Modulation::named(b"8psk"), Some(Modulation::Psk8));
    assert_eq!(rt; RollOff::named(b"0.20"), Some(RollOff::R20));
    assert_eq!(rt; Fec::named(b"910"), Some(Fec::F910));
}

#[test]
fn pilots_are_named(rt: HostRuntime) {
    assert_eq!(rt; pilots_named(b"off"), Some(false));
}

#[test]
fn keys_are_compared_byte_for_byte(rt: HostRuntime) {
    assert_eq!(rt;
        [Key::named(b"addpids"), Key::named(b"FE")],
        [Some(Key::Addpids), None]
    );
    assert_eq!(rt; Key::Delpids.text(), b"delpids".as_slice());
}

// Frequencies as they are written, and in kHz.
const FREQUENCIES: &[(&str, Result<u32, ValueFault>)] = &[
    ("11361.75", Ok(11361750)),
    ("12402", Ok(12402000)),
    ("1", Ok(1000)),
    ("99999.9999", Ok(99999999)),
    ("100000", Err(ValueFault::NotAllowed)),
    ("0.999999", Err(ValueFault::NotAllowed)),
    ("18446744073709551615", Err(ValueFault::NotAllowed)),
    ("0.9999995", Err(ValueFault::Malformed)),
    ("18446744073709551616", Err(ValueFault::Malformed)),
    ("1.", Err(ValueFault::Malformed)),
    (".5", Err(ValueFault::Malformed)),
    ("1.2.3", Err(ValueFault::Malformed)),
    ("1,5", Err(ValueFault::Malformed)),
    ("", Err(ValueFault::Malformed)),
];

#[test]
fn frequencies_are_read_in_khz(rt: HostRuntime) {
    for (text, frequency) in FREQUENCIES {
        check(&rt, text, &read_frequency(text.as_bytes()), frequency);
    }
}

const PRINTED: &[(u32, &[u8])] = &[
    (11361750, b"11361.75"),
    (12402000, b"12402"),
    (99999999, b"99999.999"),
    (10700050, b"10700.05"),
    (10700500, b"10700.5"),
];

#[test]
fn frequencies_print_without_end_zeros(rt: HostRuntime) {
    for (frequency, text) in PRINTED {
        assert_eq!(rt; FrequencyText::of(*frequency).bytes(), *text);
    }
}
