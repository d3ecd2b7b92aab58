// Which way process data goes, what an oversampling record is, and whether CoE is on.
#![tactic(auto)]

ghost use Rattle.std.specs.Prelude.{◌≡◌};
ghost use Rattle.sheet.specs.Sheet.{sheet_data};
ghost use Rattle.pdo.specs.Direction.{terms_of, is_data};
ghost use Rattle.pdo.specs.Bits.{some_usage, by_coe};

// Which way process data goes.
#[derive(Clone, Copy, Debug, PartialEq, Eq)]
pub enum PdoDirection {
    MasterRead,
    MasterWrite,
}

// What a direction takes: the usage of its sync managers, of its FMMU entry, and its kind of EEPROM PDO, as a sheet's bytes
// say them.
#[derive(Clone, Copy, Debug, PartialEq, Eq)]
pub struct Terms {
    pub usage: u8,
    pub fmmu_usage: u8,
    pub kind: u8,
}

impl PdoDirection {
    // What this direction takes.
    pub fn filter_terms(self) -> Terms
        ensures { result ≡ terms_of self }
    {
        match self {
            PdoDirection::MasterRead => Terms {
                usage: 4,
                fmmu_usage: 2,
                kind: 1,
            },
            PdoDirection::MasterWrite => Terms {
                usage: 3,
                fmmu_usage: 1,
                kind: 2,
            },
        }
    }
}

// Whether a sync manager of a usage has process data, of either direction.
pub fn is_data(usage: u8) -> bool
    ensures { result ≡ is_data usage }
{
    usage == PdoDirection::MasterRead.filter_terms().usage
        || usage == PdoDirection::MasterWrite.filter_terms().usage
}

// An oversampling record: a PDO index, and how many times its bits count.
#[derive(Clone, Copy, Debug, PartialEq, Eq)]
pub struct Oversampling {
    pub pdo_index: u16,
    pub multiplier: u8,
}

// Whether a sync manager has the usage.
fn some_usage(sheet: &[u8], usage: u8) -> bool
    ensures { result ≡ some_usage usage (sheet_data sheet.now).managers }
{
    (0..grammar::manager_count(sheet)).any(|k| sheet::usage_of(sheet, k) == usage)
}

// Whether CoE is on: flag bits 0 and 1, and a read mailbox of length above 0.
#[tactic(auto, unfolding(crate::specs::Bits::by_coe))]
pub fn coe_on(sheet: &[u8]) -> bool
    ensures { result ≡ by_coe (sheet_data sheet.now) }
{
    sheet::has_mailbox(sheet)
        && sheet::coe_protocol(sheet)
        && 0 < sheet::send_size(sheet).0
        && some_usage(sheet, 2)
}
