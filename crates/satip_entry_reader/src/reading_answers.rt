//! Answers, read from the front of a record's bytes.

ghost use Rattle.std.specs.Prelude.{◌≡◌, ◌++◌, IfSome};
ghost use Rattle.satip_entry_reader.specs.Reading.{behind};
ghost use Rattle.satip_entry_writer.specs.Records.{answer_text, beat_text, closed_text, get_text, pulled_text, replied_text, work_text};
ghost use Rattle.satip_entry_reader.specs.ReadingAnswers.{answer_read, beat_read, closed_read, get_read, pulled_read, replied_read, work_read};

use crate::reading::Reading;
use satip_plain::{Answer, Beat, Closed, GetAnswer, Pulled, Replied, Work};

impl Reading<'_> {
    /// Reads the status of an RTSP reply, and whether it closes the connection.
    #[tactic(auto, unfolding(crate::specs::ReadingAnswers::replied_read))]
    pub fn read_replied(&mut self) -> Option<Replied>
        ensures read { behind result self.new ≡ replied_read self.old }
        ensures front { IfSome result (λ x. self.old ≡ replied_text x ++ self.new) }
    {
        let Some(status) = self.read_u16() else {
            return None;
        };
        let Some(closing) = self.read_bool() else {
            return None;
        };
        Some(Replied { status, closing })
    }

    /// Reads the answer to a GET: the session that it started, or the status of its refusal.
    #[tactic(auto, unfolding(crate::specs::ReadingAnswers::get_read))]
    pub fn read_get(&mut self) -> Option<GetAnswer>
        ensures read { behind result self.new ≡ get_read self.old }
        ensures front { IfSome result (λ x. self.old ≡ get_text x ++ self.new) }
    {
        let Some(place) = self.read_u8() else {
            return None;
        };
        match place {
            0 => {
                let Some(id) = self.read_id() else {
                    return None;
                };
                Some(GetAnswer::Started(id))
            }
            1 => {
                let Some(status) = self.read_u16() else {
                    return None;
                };
                Some(GetAnswer::Refused(status))
            }
            _ => None,
        }
    }

    /// Reads the answer to a tick.
    #[tactic(auto, unfolding(crate::specs::ReadingAnswers::beat_read))]
    pub fn read_beat(&mut self) -> Option<Beat>
        ensures read { behind result self.new ≡ beat_read self.old }
        ensures front { IfSome result (λ x. self.old ≡ beat_text x ++ self.new) }
    {
        let Some(place) = self.read_u8() else {
            return None;
        };
        match place {
            0 => Some(Beat::Going),
            1 => Some(Beat::Stopping),
            _ => None,
        }
    }

    /// Reads the answer to an `Ask` of a front end.
    #[tactic(auto, unfolding(crate::specs::ReadingAnswers::work_read))]
    pub fn read_work(&mut self) -> Option<Work>
        ensures read { behind result self.new ≡ work_read self.old }
        ensures front { IfSome result (λ x. self.old ≡ work_text x ++ self.new) }
    {
        let Some(place) = self.read_u8() else {
            return None;
        };
        match place {
            0 => {
                let Some(mux) = self.read_u16() else {
                    return None;
                };
                let Some(tune) = self.read_u64() else {
                    return None;
                };
                Some(Work::Tune { mux, tune })
            }
            1 => Some(Work::Nothing),
            2 => Some(Work::Stopping),
            _ => None,
        }
    }

    /// Reads the answer to a `Pull`.
    #[tactic(auto, unfolding(crate::specs::ReadingAnswers::pulled_read))]
    pub fn read_pulled(&mut self) -> Option<Pulled>
        ensures read { behind result self.new ≡ pulled_read self.old }
        ensures front { IfSome result (λ x. self.old ≡ pulled_text x ++ self.new) }
    {
        let Some(place) = self.read_u8() else {
            return None;
        };
        match place {
            0 => {
                let Some(count) = self.read_u64() else {
                    return None;
                };
                Some(Pulled::Bytes(count as usize))
            }
            1 => Some(Pulled::Empty),
            2 => Some(Pulled::Gone),
            _ => None,
        }
    }

    /// Reads the answer to a `Close`.
    #[tactic(auto, unfolding(crate::specs::ReadingAnswers::closed_read))]
    pub fn read_closed(&mut self) -> Option<Closed>
        ensures read { behind result self.new ≡ closed_read self.old }
        ensures front { IfSome result (λ x. self.old ≡ closed_text x ++ self.new) }
    {
        let Some(place) = self.read_u8() else {
            return None;
        };
        match place {
            0 => Some(Closed::Yes),
            1 => Some(Closed::Gone),
            _ => None,
        }
    }

    /// Reads an answer of any kind.
    #[tactic(auto, unfolding(crate::specs::ReadingAnswers::answer_read, satip_entry_writer::specs::Records::answer_text))]
    pub fn read_answer(&mut self) -> Option<Answer>
        ensures read { behind result self.new ≡ answer_read self.old }
        ensures front { IfSome result (λ x. self.old ≡ answer_text x ++ self.new) }
    {
        let Some(place) = self.read_u8() else {
            return None;
        };
        match place {
            0 => {
                let Some(replied) = self.read_replied() else {
                    return None;
                };
                Some(Answer::Replied(replied))
            }
            1 => {
                let Some(get) = self.read_get() else {
                    return None;
                };
                Some(Answer::Get(get))
            }
            2 => {
                let Some(beat) = self.read_beat() else {
                    return None;
                };
                Some(Answer::Beat(beat))
            }
            3 => {
                let Some(work) = self.read_work() else {
                    return None;
                };
                Some(Answer::Work(work))
            }
            4 => {
                let Some(pulled) = self.read_pulled() else {
                    return None;
                };
                Some(Answer::Pulled(pulled))
            }
            5 => {
                let Some(closed) = self.read_closed() else {
                    return None;
                };
                Some(Answer::Closed(closed))
            }
            _ => None,
        }
    }
}
