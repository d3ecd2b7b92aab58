// Which entries the sync managers of a direction use.
ghost use Rattle.std.specs.Prelude.{◌≡◌, ◌<◌};
ghost use Rattle.sheet.specs.Sheet.{managers_in};
ghost use Rattle.passes.specs.Handed.{uses_by_both};
ghost use Rattle.entries.specs.Lay.{entry_taken, entry_used, uses_of};

use passes::{Route, Wanted};
use pdi::ByteLen;
use pdo::PdoDirection;

// The entry that the sync manager with a number and a size uses: its own even at 0 bits, a given one only with bits.
fn entry_of(route: Route, number: u8, size: ByteLen) -> Option<usize>
    requires { number < 16 }
    ensures { result ≡ entry_taken route number size.0 }
{
    match route {
        Route::Own => Some(usize::from(number)),
        Route::Given(entries) if 0 < size.0 => Some(usize::from(entries[usize::from(number)])),
        Route::Given(_) => None,
    }
}

// What a call wants of a sheet for one direction.
#[derive(Drop)]
pub(crate) struct Uses<'a> {
    pub(crate) sheet: &'a [u8],
    pub(crate) sizes: [ByteLen; 16],
    route: Route,
    pub(crate) direction: PdoDirection,
}

impl<'a> Uses<'a> {
    // A direction's part of what a call wants.
    pub(crate) fn of(sheet: &'a [u8], wanted: Wanted, direction: PdoDirection) -> Uses<'a>
        ensures uses { uses_of result ≡ uses_by_both wanted (managers_in sheet.now) direction }
        ensures direction { result.direction ≡ direction }
    {
        let route = match direction {
            PdoDirection::MasterRead => wanted.routes.inputs,
            PdoDirection::MasterWrite => wanted.routes.outputs,
        };
        let sizes = wanted.sizes;
        Uses {
            sheet,
            sizes,
            route,
            direction,
        }
    }

    // The entry that the sync manager with a number uses; one of another usage uses none.
    pub(crate) fn entry(&self, number: u8) -> Option<usize>
        requires { number < 16 }
        ensures { result ≡ entry_used self.now number }
    {
        if sheet::usage_of(self.sheet, number) != self.direction.filter_terms().usage {
            return None;
        }
        entry_of(self.route, number, self.sizes[usize::from(number)])
    }
}
