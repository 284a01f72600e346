ghost use Rattle.bar_pool.specs.Laws.{DrawsKeepTheirLaw};

/// Whatever the seats do, and in whatever order: each number is drawn once, and none is left out.
pub fn draws_keep_their_law()
    ensures { DrawsKeepTheirLaw }
{}
