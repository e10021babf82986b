//! Tests messages, requests, replies, reports and descriptions by example.
#![tactic(auto)]

#[cfg(test)]
mod channels;
#[cfg(test)]
mod checks;
#[cfg(test)]
mod client_requests;
#[cfg(test)]
mod frame;
#[cfg(test)]
mod framed;
#[cfg(test)]
mod hearing;
#[cfg(test)]
mod http;
#[cfg(test)]
mod parts;
#[cfg(test)]
mod replies;
#[cfg(test)]
mod rtcp;
#[cfg(test)]
mod rtsp;
#[cfg(test)]
mod sdp;
