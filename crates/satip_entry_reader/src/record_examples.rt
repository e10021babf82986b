//! Worked examples of records that are read.

ghost use Rattle.satip_entry_reader.specs.Rows.{LargePidIsNone, SetupIsRead, ShortListIsNone, StopIsRead, TenthKindIsNone, TickIsRead};

/// States how a stop, a tick and a SETUP are read from bytes worked out by hand, and that other
/// bytes are none. It does nothing; its contract is the examples.
pub fn worked_records()
    ensures stop { StopIsRead }
    ensures tick { TickIsRead }
    ensures setup { SetupIsRead }
    ensures large_pid { LargePidIsNone }
    ensures short_list { ShortListIsNone }
    ensures tenth_kind { TenthKindIsNone }
{}
