//! The laws of small parts: a written value is read again. Each function does nothing; its contract
//! is the law.

ghost use Rattle.std.specs.Prelude.{◌<◌, ◌^◌};
ghost use Rattle.satip_plain.specs.Values.{ArePorts, IsChange, IsDraw, IsId};
ghost use Rattle.satip_entry_writer.specs.Fields.{bool_text, draw_text, fec_text, id_text, modulation_text, pol_text, ports_text, roll_off_text, system_text, u16_text, u32_text, u64_text, u8_text};
ghost use Rattle.satip_entry_writer.specs.Records.{answer_text};
ghost use Rattle.satip_entry_reader.specs.ReadingAnswers.{IsAnswer, answer_read};
ghost use Rattle.satip_entry_writer.specs.Requests.{change_text};
ghost use Rattle.satip_entry_reader.specs.Reading.{NoneBegins, ReadsAgain, bool_read, change_read, draw_read, fec_read, id_read, modulation_read, pol_read, ports_read, roll_off_read, system_read, u16_read, u32_read, u64_read, u8_read};

/// States that each value of a small part's type is read again from its text, whatever follows it.
pub fn parts_are_read_again()
    ensures u8 { ReadsAgain (λ n. n < 2 ^ 8) u8_text u8_read }
    ensures u16 { ReadsAgain (λ n. n < 2 ^ 16) u16_text u16_read }
    ensures u32 { ReadsAgain (λ n. n < 2 ^ 32) u32_text u32_read }
    ensures u64 { ReadsAgain (λ n. n < 2 ^ 64) u64_text u64_read }
    ensures bool { ReadsAgain (λ x. Unit {0}) bool_text bool_read }
    ensures pol { ReadsAgain (λ x. Unit {0}) pol_text pol_read }
    ensures roll_off { ReadsAgain (λ x. Unit {0}) roll_off_text roll_off_read }
    ensures system { ReadsAgain (λ x. Unit {0}) system_text system_read }
    ensures modulation { ReadsAgain (λ x. Unit {0}) modulation_text modulation_read }
    ensures fec { ReadsAgain (λ x. Unit {0}) fec_text fec_read }
    ensures id { ReadsAgain IsId id_text id_read }
    ensures draw { ReadsAgain IsDraw draw_text draw_read }
    ensures ports { ReadsAgain ArePorts ports_text ports_read }
    ensures change { ReadsAgain IsChange change_text change_read }
    ensures answer { ReadsAgain IsAnswer answer_text answer_read }
{}

/// States that no text of a small part is a prefix of another's.
pub fn no_part_begins_another()
    ensures id { NoneBegins IsId id_text }
    ensures draw { NoneBegins IsDraw draw_text }
    ensures ports { NoneBegins ArePorts ports_text }
    ensures change { NoneBegins IsChange change_text }
    ensures answer { NoneBegins IsAnswer answer_text }
{}
