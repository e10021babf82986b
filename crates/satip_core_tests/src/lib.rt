//! Tests the one-thread server and its state, and worked histories of the definitions.
#![tactic(auto)]

#[cfg(test)]
mod checks;
#[cfg(test)]
mod given;
#[cfg(test)]
#[rattlefmt::skip]
#[tactic(auto, unfolding(
    satip_fronts::specs::Choice::choose,
    satip_fronts::specs::Choice::blocked,
    satip_fronts::specs::Choice::least,
    satip_fronts::specs::Choice::placed,
    satip_fronts::specs::Choice::may_take,
))]
mod http;
#[cfg(test)]
#[rattlefmt::skip]
#[tactic(auto, unfolding(
    satip_fronts::specs::Choice::choose,
    satip_fronts::specs::Choice::blocked,
    satip_fronts::specs::Choice::least,
    satip_fronts::specs::Choice::placed,
    satip_fronts::specs::Choice::may_take,
    satip_tune::specs::Words::pol_text,
    satip_tune::specs::Words::system_text,
    satip_tune::specs::Words::modulation_text,
    satip_tune::specs::Words::roll_off_text,
    satip_tune::specs::Words::fec_text,
    satip_tune::specs::Words::pilots_text_of,
    satip_rtp::specs::Bytes::rtp_header,
    satip_rtp::specs::Bytes::rtp_datagram,
))]
mod history_examples;
#[cfg(test)]
mod packets;
#[cfg(test)]
#[rattlefmt::skip]
#[tactic(auto, unfolding(
    satip_fronts::specs::Choice::choose,
    satip_fronts::specs::Choice::blocked,
    satip_fronts::specs::Choice::least,
    satip_fronts::specs::Choice::placed,
    satip_fronts::specs::Choice::may_take,
))]
mod readings;
#[cfg(test)]
mod requests;
#[cfg(test)]
mod server;
