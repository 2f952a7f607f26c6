// Lead station: one station of the group decides.
ghost use Rattle.std.specs.Prelude.{◌≡◌, true};
ghost use Rattle.rules.specs.Chosen.{may_lead};

mod leading;

// The rule of a group of n in which one station leads.
#[derive(Clone, Copy)]
pub struct LeadStation {
    n: u8,
    station: u8,
    ghost chosen: { may_lead n station ≡ true },
}
