// The command that a call asks for, once nothing is left to be tested but what is its own.
ghost use Rattle.std.specs.Prelude.{◌≡◌, [], ℕ};
ghost use Rattle.forms.proofs.Fields.{Fits};
ghost use Rattle.store.specs.Store.{enacted, refused_unit};
ghost use Rattle.reply.specs.Contract.{store_of, call_of};
ghost use Rattle.reply.specs.Reply.{Bounded, served};
ghost use Rattle.alter.specs.Altered.{altered};
ghost use Rattle.commands.specs.Served.{served_by, alters_to, bare, replying};

use answers::{Answer, Refusal};
use attentions::notices;
use forms::{Command, Request};
use reply::Outcome;
use rights::{Action, Rights};
use store::Unit;

// An answer that returns no bytes.
pub fn answered(answer: Answer, unit: Unit) -> Outcome
    ensures { result ≡ bare answer unit }
{
    Outcome {
        answer,
        returned: 0,
        unit,
    }
}

// A command that returns bytes, or is refused, leaves the unit as it was.
fn replied(reply: Result<usize, Answer>, unit: Unit) -> Outcome
    ensures { result ≡ replying reply unit }
{
    match reply {
        Ok(returned) => Outcome {
            answer: Answer::Good,
            returned,
            unit,
        },
        Err(answer) => answered(answer, unit),
    }
}

// The unit where an action of a nexus leaves these rights.
#[tactic(auto, unfolding(store::specs::Store::enacted))]
fn enacted(action: Action, nexus: u64, unit: Unit, rights: Rights) -> Unit
    ensures { result ≡ enacted action nexus unit rights }
{
    let attentions = notices::send(action, &unit.rights, &rights, nexus, unit.attentions);
    Unit {
        rights,
        attentions,
        ..unit
    }
}

// The unit after a refusal: one that returns what waited for the nexus takes it away.
#[tactic(auto, unfolding(store::specs::Store::refused_unit, store::specs::Store::relieved, answers::specs::Answers::is_attention, answers::specs::Answers::number_of, answers::specs::Answers::codes_of))]
pub fn refused_unit(answer: Answer, nexus: u64, unit: Unit) -> Unit
    ensures { result ≡ refused_unit answer nexus unit }
{
    let returns_what_waited = matches!(
        answer,
        Answer::Refused(
            Refusal::RegistrationsPreempted
                | Refusal::ReservationsPreempted
                | Refusal::ReservationsReleased
        )
    );
    if !returns_what_waited {
        return unit;
    }
    let attentions = attentions::returned_to(unit.attentions, nexus);
    Unit { attentions, ..unit }
}

// A command on the rights changes no block.
fn alters(action: Action, request: Request, unit: Unit, nexus: u64, data_out: &[u8]) -> Outcome
    ensures { result ≡ alters_to action nexus unit (altered action request unit.rights nexus data_out.now) }
{
    match alter::alter(action, &request, &unit.rights, nexus, data_out) {
        Ok(rights) => answered(Answer::Good, enacted(action, nexus, unit, rights)),
        Err(answer) => answered(answer, unit),
    }
}

// No command looks at the format of sense: what it leaves is the same of every format.
pub fn act(
    request: Request,
    unit: Unit,
    owners: &mut [u64],
    marks: &mut [u64],
    medium: &mut [u8],
    nexus: u64,
    data_out: &[u8],
    data_in: &mut [u8],
) -> Outcome
    requires { Bounded unit.capacity owners.old marks.old medium.old × Fits request }
    ensures { (format : ℕ) → served format result owners.new marks.new medium.new data_in.new
        ≡ served_by request.command request
        (store_of format unit owners.old marks.old medium.old)
        (call_of nexus [] data_out.now data_in.old []) }
{
    match request.command {
        Command::Tells(what) => replied(tell::tell(what, request, unit, data_in), unit),
        Command::Alters(action) => alters(action, request, unit, nexus, data_out),
        Command::Moves(what) => {
            let reply = blocks::move_blocks(
                what,
                request,
                unit.capacity,
                owners,
                marks,
                medium,
                data_out,
                data_in,
            );
            replied(reply, unit)
        }
    }
}
