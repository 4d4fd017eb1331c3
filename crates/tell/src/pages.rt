// The parameter data of INQUIRY, its pages, and READ CAPACITY.
ghost use Rattle.std.specs.Prelude.{◌≡◌, ◌≤◌};
ghost use Rattle.store.specs.Vital.{pages_page, limits_page, provisioning_page};
ghost use Rattle.store.specs.Tell.{inquiry_data, capacity10_data, capacity16_data};

use fields::numbers;

#[tactic(auto, unfolding(store::specs::Tell::inquiry_data))]
pub fn inquiry() -> [u8; 36]
    ensures { result ≡ inquiry_data }
{
    [
        0x00, 0x00, 0x06, 0x02, 0x1F, 0x00, 0x00, 0x00, 0x52, 0x49, 0x44, 0x47, 0x45, 0x20, 0x20,
        0x20, 0x4C, 0x4F, 0x41, 0x44, 0x20, 0x4C, 0x4F, 0x47, 0x20, 0x53, 0x54, 0x4F, 0x52, 0x45,
        0x20, 0x20, 0x30, 0x31, 0x30, 0x30,
    ]
}

// Page 00h: the pages there are.
#[tactic(auto, unfolding(store::specs::Vital::pages_page, store::specs::Vital::vital_page, forms::specs::Tests::pages, fields::specs::Field::bytes))]
pub fn supported() -> [u8; 7]
    ensures { result ≡ pages_page }
{
    [0x00, 0x00, 0x00, 0x03, 0x00, 0xB0, 0xB2]
}

// Page B0h: WSNZ and four limits; all others are 0.
#[tactic(auto, unfolding(store::specs::Vital::limits_page, store::specs::Vital::vital_page, fields::specs::Field::bytes, fields::specs::Bytes::zeros))]
pub fn block_limits() -> [u8; 64]
    ensures { result ≡ limits_page }
{
    let mut page = [0; 64];
    page[1] = 0xB0;
    page[3] = 60;
    page[4] = 0x01; // WSNZ
    page[11] = 128; // MAXIMUM TRANSFER LENGTH
    page[20] = 0xFF; // MAXIMUM UNMAP LBA COUNT
    page[21] = 0xFF;
    page[22] = 0xFF;
    page[23] = 0xFF;
    page[27] = 16; // MAXIMUM UNMAP BLOCK DESCRIPTOR COUNT
    page[43] = 128; // MAXIMUM WRITE SAME LENGTH
    page
}

// Page B2h: LBPU, LBPWS and LBPRZ 001b; thin.
#[tactic(auto, unfolding(store::specs::Vital::provisioning_page, store::specs::Vital::vital_page, fields::specs::Field::bytes))]
pub fn provisioning() -> [u8; 8]
    ensures { result ≡ provisioning_page }
{
    [0x00, 0xB2, 0x00, 0x04, 0x00, 0xC4, 0x02, 0x00]
}

// The last address as 32 bits show it: FFFF_FFFFh where it is larger.
#[tactic(auto, unfolding(store::specs::Tell::capacity10_data, fields::specs::Field::bytes))]
pub fn capacity10(capacity: u64) -> [u8; 8]
    requires { 1 ≤ capacity }
    ensures { result ≡ capacity10_data capacity }
{
    let last = (capacity - 1).min(0xFFFF_FFFF);
    let a = numbers::bytes::<4>(last);
    [a[0], a[1], a[2], a[3], 0, 0, 2, 0]
}

#[tactic(auto, unfolding(store::specs::Tell::capacity16_data, fields::specs::Field::bytes, fields::specs::Bytes::zeros))]
pub fn capacity16(capacity: u64) -> [u8; 32]
    requires { 1 ≤ capacity }
    ensures { result ≡ capacity16_data capacity }
{
    let a = numbers::bytes::<8>(capacity - 1);
    [
        a[0], a[1], a[2], a[3], a[4], a[5], a[6], a[7], 0, 0, 2, 0, 0, 0, 0xC0, 0, 0, 0, 0, 0, 0,
        0, 0, 0, 0, 0, 0, 0, 0, 0, 0, 0,
    ]
}
