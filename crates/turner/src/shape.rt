// What a turner remembers of an accepted set of the scanner.
ghost use Rattle.std.specs.Prelude.{◌≡◌, true};
ghost use Rattle.turner.specs.Bounds.{first_group, small};

use machine::{Accepted, Group};
use reader::codes;
use records::Form;

// The order that is shown: bands interleaved line by line, or band after band.
#[derive(Clone, Copy)]
pub enum Order {
    ByLine,
    ByBand,
}

// An accepted set within the bounds (`small`), and the order in which it is shown: the other one.
#[derive(Clone, Copy)]
pub struct Turning {
    pub accepted: Accepted,
    pub order: Order,
    ghost bounds: { small accepted ≡ true },
}

// The group whose sheets are shown.
fn first_group(accepted: &Accepted) -> Group
    ensures { result ≡ first_group accepted.now }
{
    accepted.places.table[0]
}

// Whether a set keeps to the bounds that every accepted set has.
fn small(accepted: &Accepted) -> bool
    ensures { result ≡ small accepted.now }
{
    accepted.summary.lines <= 8192
        && codes(&accepted.summary.bands).len() <= 5
        && first_group(accepted).trailers <= 5
}

impl Order {
    ghost use Rattle.turner.specs.Shapes.{other_order};

    // The order in which a set of some form is turned. A vidicon's set has none.
    fn other(form: Form) -> Option<Self>
        ensures { result ≡ other_order form }
    {
        match form {
            Form::Interleaved => Some(Order::ByBand),
            Form::Sequential => Some(Order::ByLine),
            Form::Vidicon => None,
        }
    }
}

impl Turning {
    ghost use Rattle.turner.specs.Shapes.{plan, planned, turning_of, groups, images, trailers};

    // What is remembered of an accepted set: nothing where it is not turned.
    pub(crate) fn of(accepted: Accepted) -> Option<Self>
        ensures { planned result ≡ turning_of accepted }
    {
        let order = Order::other(accepted.summary.layout.form)?;
        if small(&accepted) {
            Some(Turning { accepted, order })
        } else {
            None
        }
    }

    // The group whose sheets are shown.
    pub(crate) fn first_group(&self) -> Group
        ensures { result ≡ first_group self.now.accepted }
    {
        first_group(&self.accepted)
    }

    // How many groups are shown.
    pub(crate) fn groups(&self) -> u32
        ensures { result ≡ groups (plan self.now) }
    {
        match self.order {
            Order::ByLine => 1,
            Order::ByBand => codes(&self.accepted.summary.bands).len() as u32,
        }
    }

    // How many image blocks each of them has.
    pub(crate) fn images(&self) -> u32
        ensures { result ≡ images (plan self.now) }
    {
        let summary = self.accepted.summary;
        match self.order {
            Order::ByLine => summary.lines * summary.layout.stride(),
            Order::ByBand => summary.lines,
        }
    }

    // How many trailers.
    pub(crate) fn trailers(&self) -> u32
        ensures { result ≡ trailers (plan self.now) }
    {
        self.first_group().trailers
    }
}
