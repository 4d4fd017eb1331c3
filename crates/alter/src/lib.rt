// PERSISTENT RESERVE OUT: it sees and changes the rights alone.
#![tactic(auto)]

ghost use Rattle.std.specs.Prelude.{◌≡◌};
ghost use Rattle.store.specs.Alter.{parameters_of};
ghost use Rattle.alter.specs.Altered.{altered};

use answers::Answer;
use fields::numbers;
use forms::Request;
use rights::{Action, FLAGS_BYTE, Parameters, Rights, SERVICE_KEY_BYTE};

// How long a parameter list is.
const LIST_BYTES: usize = 24;

#[tactic(auto, unfolding(store::specs::Alter::parameters_of, fields::specs::Bits::number_in))]
fn parameters_of(request: &Request, list: &[u8]) -> Parameters
    ensures { result ≡ parameters_of request.now list.now }
{
    Parameters {
        kind: request.kind,
        key: numbers::number(list, 0, 8),
        service: numbers::number(list, usize::from(SERVICE_KEY_BYTE), 8),
        flags: numbers::byte(list, usize::from(FLAGS_BYTE)),
    }
}

#[tactic(auto, unfolding(crate::specs::Altered::altered, store::specs::Alter::alter_rows, rights::specs::Actions::decided, answers::specs::Order::first_of, answers::specs::Order::if_good_by, answers::specs::Order::refuses))]
pub fn alter(
    action: Action,
    request: &Request,
    rights: &Rights,
    nexus: u64,
    data_out: &[u8],
) -> Result<Rights, Answer>
    ensures { result ≡ altered action request.now rights.now nexus data_out.now }
{
    if request.size != LIST_BYTES as u64 {
        return Err(answers::list_length());
    }
    if data_out.len() < LIST_BYTES {
        return Err(Answer::Short);
    }
    actions::decide(action, rights, nexus, parameters_of(request, data_out))
}
