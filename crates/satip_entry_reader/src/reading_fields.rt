//! The small parts of a record, read from the front of its bytes.

ghost use Rattle.std.specs.Prelude.{◌≡◌, ◌++◌, IfSome};
ghost use Rattle.satip_entry_writer.specs.Fields.{u8_text, u16_text, u32_text, bool_text, option_text, id_text, draw_text, ports_text, pol_text, roll_off_text, system_text, modulation_text, fec_text};
ghost use Rattle.satip_entry_writer.specs.Requests.{change_text};
ghost use Rattle.satip_entry_reader.specs.Reading.{behind, u8_read, u16_read, u32_read, bool_read, read_option, id_read, draw_read, ports_read, pol_read, roll_off_read, system_read, modulation_read, fec_read, change_read};

use crate::reading::Reading;
use satip_base::{Draw, Ports, SessionId};
use satip_tune::{Change, Fec, Modulation, Pol, RollOff, System};

impl Reading<'_> {
    /// Reads a polarisation.
    #[tactic(auto, unfolding(crate::specs::Reading::pol_read))]
    pub fn read_pol(&mut self) -> Option<Pol>
        ensures read { behind result self.new ≡ pol_read self.old }
        ensures front { IfSome result (λ x. self.old ≡ pol_text x ++ self.new) }
    {
        let place = self.read_u8()?;
        match place {
            0 => Some(Pol::H),
            1 => Some(Pol::V),
            2 => Some(Pol::L),
            3 => Some(Pol::R),
            _ => None,
        }
    }

    /// Reads a roll-off.
    #[tactic(auto, unfolding(crate::specs::Reading::roll_off_read))]
    pub fn read_roll_off(&mut self) -> Option<RollOff>
        ensures read { behind result self.new ≡ roll_off_read self.old }
        ensures front { IfSome result (λ x. self.old ≡ roll_off_text x ++ self.new) }
    {
        let place = self.read_u8()?;
        match place {
            0 => Some(RollOff::R35),
            1 => Some(RollOff::R25),
            2 => Some(RollOff::R20),
            _ => None,
        }
    }

    /// Reads a delivery system.
    #[tactic(auto, unfolding(crate::specs::Reading::system_read))]
    pub fn read_system(&mut self) -> Option<System>
        ensures read { behind result self.new ≡ system_read self.old }
        ensures front { IfSome result (λ x. self.old ≡ system_text x ++ self.new) }
    {
        let place = self.read_u8()?;
        match place {
            0 => Some(System::Dvbs),
            1 => Some(System::Dvbs2),
            _ => None,
        }
    }

    /// Reads a modulation.
    #[tactic(auto, unfolding(crate::specs::Reading::modulation_read))]
    pub fn read_modulation(&mut self) -> Option<Modulation>
        ensures read { behind result self.new ≡ modulation_read self.old }
        ensures front { IfSome result (λ x. self.old ≡ modulation_text x ++ self.new) }
    {
        let place = self.read_u8()?;
        match place {
            0 => Some(Modulation::Qpsk),
            1 => Some(Modulation::Psk8),
            _ => None,
        }
    }

    /// Reads a code rate.
    #[tactic(auto, unfolding(crate::specs::Reading::fec_read))]
    pub fn read_fec(&mut self) -> Option<Fec>
        ensures read { behind result self.new ≡ fec_read self.old }
        ensures front { IfSome result (λ x. self.old ≡ fec_text x ++ self.new) }
    {
        let place = self.read_u8()?;
        match place {
            0 => Some(Fec::F12),
            1 => Some(Fec::F23),
            2 => Some(Fec::F34),
            3 => Some(Fec::F56),
            4 => Some(Fec::F78),
            5 => Some(Fec::F89),
            6 => Some(Fec::F35),
            7 => Some(Fec::F45),
            8 => Some(Fec::F910),
            _ => None,
        }
    }

    /// Reads an optional number of 8 bits.
    #[tactic(auto, unfolding(crate::specs::Reading::read_option))]
    pub fn read_option_u8(&mut self) -> Option<Option<u8>>
        ensures read { behind result self.new ≡ read_option u8_read self.old }
        ensures front { IfSome result (λ x. self.old ≡ option_text u8_text x ++ self.new) }
    {
        let given = self.read_bool()?;
        if !given {
            return Some(None);
        }
        let value = self.read_u8()?;
        Some(Some(value))
    }

    /// Reads an optional number of 16 bits.
    #[tactic(auto, unfolding(crate::specs::Reading::read_option))]
    pub fn read_option_u16(&mut self) -> Option<Option<u16>>
        ensures read { behind result self.new ≡ read_option u16_read self.old }
        ensures front { IfSome result (λ x. self.old ≡ option_text u16_text x ++ self.new) }
    {
        let given = self.read_bool()?;
        if !given {
            return Some(None);
        }
        let value = self.read_u16()?;
        Some(Some(value))
    }

    /// Reads an optional number of 32 bits.
    #[tactic(auto, unfolding(crate::specs::Reading::read_option))]
    pub fn read_option_u32(&mut self) -> Option<Option<u32>>
        ensures read { behind result self.new ≡ read_option u32_read self.old }
        ensures front { IfSome result (λ x. self.old ≡ option_text u32_text x ++ self.new) }
    {
        let given = self.read_bool()?;
        if !given {
            return Some(None);
        }
        let value = self.read_u32()?;
        Some(Some(value))
    }

    /// Reads an optional bool.
    #[tactic(auto, unfolding(crate::specs::Reading::read_option))]
    pub fn read_option_bool(&mut self) -> Option<Option<bool>>
        ensures read { behind result self.new ≡ read_option bool_read self.old }
        ensures front { IfSome result (λ x. self.old ≡ option_text bool_text x ++ self.new) }
    {
        let given = self.read_bool()?;
        if !given {
            return Some(None);
        }
        let value = self.read_bool()?;
        Some(Some(value))
    }

    /// Reads an optional polarisation.
    #[tactic(auto, unfolding(crate::specs::Reading::read_option))]
    pub fn read_option_pol(&mut self) -> Option<Option<Pol>>
        ensures read { behind result self.new ≡ read_option pol_read self.old }
        ensures front { IfSome result (λ x. self.old ≡ option_text pol_text x ++ self.new) }
    {
        let given = self.read_bool()?;
        if !given {
            return Some(None);
        }
        let value = self.read_pol()?;
        Some(Some(value))
    }

    /// Reads an optional roll-off.
    #[tactic(auto, unfolding(crate::specs::Reading::read_option))]
    pub fn read_option_roll_off(&mut self) -> Option<Option<RollOff>>
        ensures read { behind result self.new ≡ read_option roll_off_read self.old }
        ensures front { IfSome result (λ x. self.old ≡ option_text roll_off_text x ++ self.new) }
    {
        let given = self.read_bool()?;
        if !given {
            return Some(None);
        }
        let value = self.read_roll_off()?;
        Some(Some(value))
    }

    /// Reads an optional delivery system.
    #[tactic(auto, unfolding(crate::specs::Reading::read_option))]
    pub fn read_option_system(&mut self) -> Option<Option<System>>
        ensures read { behind result self.new ≡ read_option system_read self.old }
        ensures front { IfSome result (λ x. self.old ≡ option_text system_text x ++ self.new) }
    {
        let given = self.read_bool()?;
        if !given {
            return Some(None);
        }
        let value = self.read_system()?;
        Some(Some(value))
    }

    /// Reads an optional modulation.
    #[tactic(auto, unfolding(crate::specs::Reading::read_option))]
    pub fn read_option_modulation(&mut self) -> Option<Option<Modulation>>
        ensures read { behind result self.new ≡ read_option modulation_read self.old }
        ensures front { IfSome result (λ x. self.old ≡ option_text modulation_text x ++ self.new) }
    {
        let given = self.read_bool()?;
        if !given {
            return Some(None);
        }
        let value = self.read_modulation()?;
        Some(Some(value))
    }

    /// Reads an optional code rate.
    #[tactic(auto, unfolding(crate::specs::Reading::read_option))]
    pub fn read_option_fec(&mut self) -> Option<Option<Fec>>
        ensures read { behind result self.new ≡ read_option fec_read self.old }
        ensures front { IfSome result (λ x. self.old ≡ option_text fec_text x ++ self.new) }
    {
        let given = self.read_bool()?;
        if !given {
            return Some(None);
        }
        let value = self.read_fec()?;
        Some(Some(value))
    }

    /// Reads a session's identifier.
    #[tactic(auto, unfolding(crate::specs::Reading::id_read))]
    pub fn read_id(&mut self) -> Option<SessionId>
        ensures read { behind result self.new ≡ id_read self.old }
        ensures front { IfSome result (λ x. self.old ≡ id_text x ++ self.new) }
    {
        let count = self.read_u32()?;
        let word = self.read_u32()?;
        Some(SessionId { count, word })
    }

    /// Reads a draw.
    #[tactic(auto, unfolding(crate::specs::Reading::draw_read))]
    pub fn read_draw(&mut self) -> Option<Draw>
        ensures read { behind result self.new ≡ draw_read self.old }
        ensures front { IfSome result (λ x. self.old ≡ draw_text x ++ self.new) }
    {
        let word = self.read_u32()?;
        let ssrc = self.read_u32()?;
        let first = self.read_u16()?;
        Some(Draw { word, ssrc, first })
    }

    /// Reads a pair of ports.
    #[tactic(auto, unfolding(crate::specs::Reading::ports_read))]
    pub fn read_ports(&mut self) -> Option<Ports>
        ensures read { behind result self.new ≡ ports_read self.old }
        ensures front { IfSome result (λ x. self.old ≡ ports_text x ++ self.new) }
    {
        let rtp = self.read_u16()?;
        let rtcp = self.read_u16()?;
        Some(Ports { rtp, rtcp })
    }

    /// Reads the parts of a tuning that a query gives.
    #[tactic(auto, unfolding(crate::specs::Reading::change_read, satip_entry_writer::specs::Requests::change_text))]
    pub fn read_change(&mut self) -> Option<Change>
        ensures read { behind result self.new ≡ change_read self.old }
        ensures front { IfSome result (λ x. self.old ≡ change_text x ++ self.new) }
    {
        let fe = self.read_option_u16()?;
        let src = self.read_option_u8()?;
        let freq = self.read_option_u32()?;
        let pol = self.read_option_pol()?;
        let ro = self.read_option_roll_off()?;
        let msys = self.read_option_system()?;
        let mtype = self.read_option_modulation()?;
        let plts = self.read_option_bool()?;
        let sr = self.read_option_u32()?;
        let fec = self.read_option_fec()?;
        Some(Change {
            fe,
            src,
            freq,
            pol,
            ro,
            msys,
            mtype,
            plts,
            sr,
            fec,
        })
    }
}
