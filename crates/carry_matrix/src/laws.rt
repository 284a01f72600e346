ghost use Rattle.carry_matrix.specs.Laws.{IdentityIsNeutral, ProductsAssociate};

/// Products associate, ranks included: so a chain of bars has one table, however its products are bracketed.
pub fn products_associate()
    ensures { ProductsAssociate }
{}

/// The identity is neutral on both sides.
pub fn identity_is_neutral()
    ensures { IdentityIsNeutral }
{}
