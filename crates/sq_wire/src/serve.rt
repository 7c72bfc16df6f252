//! Lines of a client, answered by a session of a service.
ghost use Rattle.std.proofs.Common.{◌∙◌};
ghost use Rattle.std.specs.Prelude.{◌≡◌, refl, OnOk, OnErr, IfOk, IfErr, Err};
ghost use Rattle.sq_queue.specs.Around.{around};
ghost use Rattle.sq_wire.specs.Runs.{IsOfCall};
ghost use Rattle.sq_wire.specs.Serves.{AllServed, CallServed, ServedReplies, ServedTo, ServedUnanswered};

use crate::answering::Answering;
use crate::long_lines::LongLines;
use crate::run::{ServeFault, answer_lines};
use sq_base::refusal::Refusal;
use sq_calls::calls::{Answered, Asked};
use sq_json::Scratch;
use sq_lines::counted::Counted;
use sq_queue::service::{Clock, Gate, Service};
use sq_queue::session::Session;
use sq_replies::reply::reply_text;
use sq_replies::text::Text;
use sq_requests::request::Request;
use std::alloc::{AllocError, Global};
use std::io::{Read, Write};
use std::sync::Wait;
use std::sync::ledger::Ledger;

/// A session at the service that made it, asked by the lines of a client.
#[derive(Drop)]
struct LineSession<'a, C, G, D: Ledger, T: Ledger, X> {
    rt: &'a X,
    service: &'a Service<C, G, D, T>,
    session: &'a mut Session<D, T>,
    scratch: &'a mut Scratch,
    long_lines: &'a LongLines,
}

// Does what was read of a line, where that is a call; a turn is a script's alone. The clock reading and the actor are passed over.
fn do_read<C: Clock + Drop, G: Gate + Drop, D: Ledger, T: Ledger, X: Wait>(
    rt: &X,
    service: &Service<C, G, D, T>,
    session: &mut Session<D, T>,
    read: Result<Request, Refusal>,
) -> Result<Answered, Refusal>
    ensures ok { IfOk read (λ request. CallServed (around C.tells G.saw service.now) session.old request.asked result session.new) }
    ensures err { IfErr read (λ e. (result ≡ Err e) × (session.new ≡ session.old)) }
{
    let request = read?;
    match &request.asked {
        Asked::Call(call) => {
            let answer = service.call(rt, session, call)?;
            Ok(Answered::Call(answer))
        }
        Asked::Turn(_) => Err(Refusal::UnsupportedOperation),
    }
}

// Does what a line asks, and gives the text of its reply. Where there is no memory for the text of an answer, the call is done
// all the same.
#[tactic(auto, unfolding(crate::specs::Serves::ServedReplies, crate::specs::Serves::ServedUnanswered))]
fn answer<C: Clock + Drop, G: Gate + Drop, D: Ledger, T: Ledger, X: Wait>(
    rt: &X,
    alloc: Global,
    scratch: &mut Scratch,
    long_lines: &LongLines,
    service: &Service<C, G, D, T>,
    session: &mut Session<D, T>,
    line: &[u8],
) -> Result<Text, AllocError>
    ensures ok { IfOk result (λ text. ServedReplies (around C.tells G.saw service.now) session.old line.now text session.new) }
    ensures err { OnErr result (ServedUnanswered (around C.tells G.saw service.now) session.old line.now session.new) }
{
    let read = long_lines.read(rt, alloc, scratch, line);
    let answered = do_read(rt, service, session, read);
    reply_text(alloc, &answered)
}

impl<'a, C: Clock + Drop, G: Gate + Drop, D: Ledger, T: Ledger, X: Wait> Answering
    for LineSession<'a, C, G, D, T, X> {
    ghost replies = { λ s line text t.
        ServedReplies (around C.tells G.saw s.service.now) s.session.now line text t.session.now × (t.service ≡ s.service) };

    ghost unanswered = { λ s line t.
        ServedUnanswered (around C.tells G.saw s.service.now) s.session.now line t.session.now × (t.service ≡ s.service) };

    ghost keeps = { λ s t. t.session.ghost_name ≡ s.session.ghost_name };

    fn answer(&mut self, alloc: Global, line: &[u8]) -> Result<Text, AllocError> {
        answer(
            self.rt,
            alloc,
            &mut *self.scratch,
            self.long_lines,
            self.service,
            &mut *self.session,
            line,
        )
    }

    ghost keeps_none = { λ s. refl };

    ghost keeps_more = { λ a b c first then. then ∙ first };
}

// Answers each line by the session that is borrowed.
fn serve_at<R: Read, W: Write, C: Clock + Drop, G: Gate + Drop, D: Ledger, T: Ledger, X: Wait>(
    alloc: Global,
    reader: &mut Counted<R>,
    writer: &mut Counted<W>,
    served: &mut LineSession<'_, C, G, D, T, X>,
) -> Result<u64, ServeFault>
    ensures same_reference { served.new.session.ghost_name ≡ served.old.session.ghost_name }
    ensures ok { IfOk result (AllServed (around C.tells G.saw served.old.service.now) (R.remaining reader.old.inner) (W.contents writer.old.inner) (W.contents writer.new.inner) served.old.session.now served.new.session.now) }
    ensures err { IfErr result (ServedTo (around C.tells G.saw served.old.service.now) R.remaining reader.old reader.new W.contents writer.old writer.new served.old.session.now served.new.session.now) }
    ensures no_failure { OnOk result ((reader.new.failed ≡ reader.old.failed) × (writer.new.failed ≡ writer.old.failed)) }
    ensures count { IfErr result (λ f. IsOfCall f reader.old.failed reader.new.failed writer.old.failed writer.new.failed) }
{
    answer_lines(alloc, reader, writer, served)
}

/// Answers each line of a client by a call of its session, until the end or a fault. Other sessions may step between any two of
/// its steps. Lines that are longer than `SHORT` of `long_lines` are read in turn with those of other connections.
pub fn serve<R: Read, W: Write, C: Clock + Drop, G: Gate + Drop, D: Ledger, T: Ledger, X: Wait>(
    alloc: Global,
    rt: &X,
    reader: &mut Counted<R>,
    writer: &mut Counted<W>,
    service: &Service<C, G, D, T>,
    session: &mut Session<D, T>,
    long_lines: &LongLines,
) -> Result<u64, ServeFault>
    // For each line in order one reply, and nothing else: that of a call whose steps are each one of a part that the gate saw, with
    // its records and no others; and where one is refused, the cause was there.
    ensures ok { IfOk result (AllServed (around C.tells G.saw service.now) (R.remaining reader.old.inner) (W.contents writer.old.inner) (W.contents writer.new.inner) session.old session.new) }
    // Up to a fault; or there was no memory to begin, and nothing was touched.
    ensures err { IfErr result (ServedTo (around C.tells G.saw service.now) R.remaining reader.old reader.new W.contents writer.old writer.new session.old session.new) }
    // No failed call goes unnoticed.
    ensures no_failure { OnOk result ((reader.new.failed ≡ reader.old.failed) × (writer.new.failed ≡ writer.old.failed)) }
    // A fault of reading or writing is one failed call.
    ensures count { IfErr result (λ f. IsOfCall f reader.old.failed reader.new.failed writer.old.failed writer.new.failed) }
{
    let Ok(mut scratch) = Box::new(alloc, Scratch::new(alloc)) else {
        return Err(ServeFault::NoMemory(0));
    };
    let mut served = LineSession {
        rt,
        service,
        session,
        scratch: &mut scratch,
        long_lines,
    };
    serve_at(alloc, reader, writer, &mut served)
}
