// The parameter data of PERSISTENT RESERVE IN, put together in a page that grows at its end.
#![tactic(auto)]

ghost use Rattle.std.specs.Prelude.{◌≡◌, ◌++◌, length};
ghost use Rattle.fields.specs.Field.{bytes};
ghost use Rattle.rights.specs.Told.{keys, keys_data, reservation_data};

use fields::numbers;
use fields::page::Page;
use reservations::{places, standing};
use rights::{NO_TYPE, Place, REGISTRATION_PLACES, Rights};

// The generation and a length, and a key of each place.
const PAGE_BYTES: usize = 72;

const KEY_BYTES: usize = 64;

// READ KEYS' parameter data.
#[tactic(auto, using(crate::proofs::KeyLaws::keys_told))]
pub fn keys_data(rights: &Rights) -> Page<PAGE_BYTES>
    ensures { result ≡ keys_data rights.now }
{
    let keys = keys(&rights.places);
    let mut page = begun(rights.generation, keys.as_slice().len() as u32);
    page.append(keys.as_slice());
    page
}

// READ RESERVATION's parameter data.
#[tactic(auto, using(crate::proofs::KeyLaws::reservation_none, crate::proofs::KeyLaws::reservation_some), unfolding(fields::specs::Bytes::zeros))]
pub fn reservation_data(rights: &Rights) -> Page<PAGE_BYTES>
    ensures { result ≡ reservation_data rights.now }
{
    if rights.kind == NO_TYPE {
        return begun(rights.generation, 0);
    }
    let mut page = begun(rights.generation, 16);
    page.append(&numbers::bytes::<8>(standing::holder_key(rights)));
    page.append(&[0; 2]);
    page.append(&numbers::bytes::<4>(u64::from(rights.kind)));
    page.append(&[0; 2]);
    page
}

// What both begin with: the generation, and how many bytes follow.
fn begun(generation: u32, following: u32) -> Page<PAGE_BYTES>
    ensures { (result ≡ bytes 4 generation ++ bytes 4 following) × (length result ≡ 8) }
{
    let mut page = Page::new();
    page.append(&numbers::bytes::<4>(u64::from(generation)));
    page.append(&numbers::bytes::<4>(u64::from(following)));
    page
}

// The keys by place.
#[tactic(auto, using(crate::proofs::KeyLaws::keys_none, crate::proofs::KeyLaws::keys_past, crate::proofs::KeyLaws::keys_added, crate::proofs::KeyLaws::keys_room))]
fn keys(places: &[Place; REGISTRATION_PLACES]) -> Page<KEY_BYTES>
    ensures { result ≡ keys places.now }
{
    let mut page = Page::new();
    for place in places {
        if places::is_used(place) {
            page.append(&numbers::bytes::<8>(place.key));
        }
    }
    page
}
