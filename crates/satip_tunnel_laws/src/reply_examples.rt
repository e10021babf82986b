//! Worked examples of the texts that requests keep, as the contract of a function with an empty
//! body.

ghost use Rattle.std.specs.Prelude.{[], codes, Some, None};
ghost use Rattle.satip_plain.specs.declared.events.Event.TheVariants.{Tick};
ghost use Rattle.satip_rtsp.specs.declared.requests.Refusal.TheVariants.{NoCseq, Require};
ghost use Rattle.satip_tunnel_laws.specs.Answered.{HasReply, KeepsPlain};

/// Shows a request that keeps a plain text, some that keep none, and texts with a line end. Nothing
/// is said of the reply to a tick.
pub fn worked_rows()
    ensures kept { KeepsPlain (Some (Require (codes "tvheadend"))) }
    ensures none { KeepsPlain None }
    ensures other { KeepsPlain (Some NoCseq) }
    ensures carriage_return { ¬ (KeepsPlain (Some (Require (codes "a\rb")))) }
    ensures line_feed { ¬ (KeepsPlain (Some (Require (codes "a\nb")))) }
    ensures tick { HasReply (Tick 40) [] }
{}
