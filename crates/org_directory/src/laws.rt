// What holds of membership.
ghost use Rattle.org_directory.specs.Membership.{InIsComputed};

/// The test of membership at any depth is the relation by chains of any length.
pub fn membership_is_by_chains()
    ensures { InIsComputed }
{}
