//! One RTSP connection: its bytes are answered as they arrive.

ghost use Rattle.std.specs.Prelude.{◌≡◌, ℕ, List, [], ◌++◌, None, IfOk};
ghost use Rattle.satip_base.specs.Streams.{Drain};
ghost use Rattle.satip_frame.specs.Held.{new_framer};
ghost use Rattle.satip_talk_command.specs.Talking.{HasAnswered};
ghost use Rattle.satip_talk_command.specs.Hearing.{Stands, Hears};

use crate::gathered::Gathered;
use crate::talker::Talker;
use satip_base::{Put, Sink, Want};
use satip_frame::{Break, Framer, Next, Piece, next_asked};
use satip_rtsp::Request;
use std::alloc::Global;

/// The state of a conversation after some bytes.
#[derive(Clone, Copy, Debug, PartialEq, Eq)]
pub(crate) enum Heard {
    /// All whole messages were answered.
    All,
    /// The last reply was a closing one.
    Closed,
    /// The output failed.
    Failed,
}

/// A server, the connection that it answers, and the replies that wait to be sent. Each request is
/// read over the one before, since moves of it cost time.
#[derive(Drop)]
pub(crate) struct Conversation {
    pub(crate) talker: Talker,
    pub(crate) framer: Framer,
    request: Request,
    pub(crate) gathered: Gathered,
}

impl Conversation {
    /// Creates a new connection to a new server. Takes all memory.
    pub(crate) fn make(alloc: Global) -> Result<Conversation, Want>
        ensures framer { IfOk result (λ made. made.framer ≡ new_framer) }
        ensures talker { IfOk result (λ made. HasAnswered made.talker []) }
        ensures gathered { IfOk result (λ made. made.gathered ≡ []) }
    {
        Ok(Conversation {
            framer: Framer::make(alloc)?,
            request: Request::broken(Break::Bad),
            gathered: Gathered::make(alloc)?,
            talker: Talker::make(alloc)?,
        })
    }

    // Takes in a piece after the bytes before it, and answers all requests in them.
    fn take_in<O: Sink>(&mut self, piece: &[u8], output: &mut O) -> Heard
        requires goes_on { self.old.framer.ended ≡ None }
        ensures hears { (o : Drain) (text : List ℕ)
            → Stands O.tells o (O.drain output.old)
            self.old.gathered text (self.old.framer.bytes ++ piece.now) self.old.talker
            → Hears O.tells o (O.drain output.new)
            self.new.gathered text self.new.framer.bytes self.new.talker result }
        ensures goes_on { result ≡ Heard.All → self.new.framer.ended ≡ None }
    {
        let mut rest = Piece::new(piece);
        'requests: loop {
            match next_asked(&mut self.framer, &mut rest, &mut self.request) {
                Next::Asked => {
                    match self.talker.reply(&self.request, &mut self.gathered, output) {
                        Put::Whole => {}
                        Put::Failed => return Heard::Failed,
                    }
                }
                Next::Last => {
                    match self.talker.reply(&self.request, &mut self.gathered, output) {
                        Put::Whole => return Heard::Closed,
                        Put::Failed => return Heard::Failed,
                    }
                }
                Next::Nothing => return Heard::All,
            }
        }
    }

    // Sends the replies that wait. `heard` is the state after the last message.
    fn send<O: Sink>(&mut self, heard: Heard, output: &mut O) -> Heard
        requires sound { heard ≡ Heard.Failed → ⊥ }
        ensures sends { (o : Drain) (text : List ℕ)
            → Hears O.tells o (O.drain output.old)
            self.old.gathered text self.old.framer.bytes self.old.talker heard
            → Hears O.tells o (O.drain output.new)
            [] text self.new.framer.bytes self.new.talker result }
        ensures framer { self.new.framer ≡ self.old.framer }
        ensures empty { self.new.gathered ≡ [] }
        ensures all { result ≡ Heard.All → heard ≡ Heard.All }
    {
        match self.gathered.flush(output) {
            Put::Whole => heard,
            Put::Failed => Heard::Failed,
        }
    }

    /// Takes in a piece after the bytes before it, answers all requests in them, and sends the
    /// replies.
    pub(crate) fn hear<O: Sink>(&mut self, piece: &[u8], output: &mut O) -> Heard
        requires goes_on { self.old.framer.ended ≡ None }
        requires empty { self.old.gathered ≡ [] }
        ensures hears { (o : Drain) (text : List ℕ)
            → Stands O.tells o (O.drain output.old)
            [] text (self.old.framer.bytes ++ piece.now) self.old.talker
            → Hears O.tells o (O.drain output.new)
            [] text self.new.framer.bytes self.new.talker result }
        ensures goes_on { result ≡ Heard.All → self.new.framer.ended ≡ None }
        ensures empty { result ≡ Heard.All → self.new.gathered ≡ [] }
    {
        match self.take_in(piece, output) {
            Heard::All => self.send(Heard::All, output),
            Heard::Closed => self.send(Heard::Closed, output),
            Heard::Failed => Heard::Failed,
        }
    }
}
