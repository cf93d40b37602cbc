// What a certificate of forms and cuts proves.
ghost use Rattle.lrat_cuts.specs.Law.{CutsAreSound, CutsProveTheCost};

/// Certificates of forms and cuts are sound: each beginning proves a lower bound of the cost, and
/// one for a cost that ends in the empty clause proves that nothing costs less.
pub fn cuts_are_sound()
    ensures lower_bound { CutsAreSound }
    ensures the_cost { CutsProveTheCost }
{}
