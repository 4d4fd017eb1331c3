// The stages of tests between the state of the store and a command's own: 1, 11 for the CDB's length, 13, 2, and 10 by the conflict table.
ghost use Rattle.std.specs.Prelude.{◌≡◌, not, ◌&&◌, eqb};
ghost use Rattle.rights.specs.Attentions.{no_attention};
ghost use Rattle.forms.specs.Forms.{entry_of};
ghost use Rattle.store.specs.Step.{is_inquiry};
ghost use Rattle.commands.specs.Served.{asked_at};

use answers::Answer;
use fields::numbers;
use forms::Request;
use rights::{NO_ATTENTION, NO_TYPE};
use store::Unit;

// INQUIRY's operation code.
const INQUIRY: u8 = 0x12;

// Whether what waits is due with a CDB: any but INQUIRY's, whatever else it says.
#[tactic(auto, unfolding(store::specs::Step::is_inquiry))]
fn is_due(waiting: u8, cdb: &[u8]) -> bool
    ensures { result ≡ (not (eqb waiting no_attention) && not (is_inquiry cdb.now)) }
{
    waiting != NO_ATTENTION && numbers::byte(cdb, 0) != INQUIRY
}

// The request of a call, or the first refusal on the way to it.
pub fn asked(unit: Unit, nexus: u64, cdb: &[u8]) -> Result<Request, Answer>
    ensures { result ≡ asked_at (entry_of cdb.now) unit nexus cdb.now }
{
    let Some(code) = decoder::entry_of(cdb) else {
        return Err(answers::not_listed());
    };
    if cdb.len() != code.long {
        return Err(Answer::Unusable);
    }
    let waiting = attentions::waiting(&unit.attentions, nexus);
    if is_due(waiting, cdb) {
        return Err(Answer::Refused(attentions::refusal_of(waiting)));
    }
    let request = decoder::request(code, cdb)?;
    // Without a reservation nobody is stopped, and the question need not be asked.
    if unit.rights.kind != NO_TYPE && conflict::conflicts(request.command, &unit.rights, nexus) {
        return Err(Answer::Conflict);
    }
    Ok(request)
}
