// What holds of descents. The body is empty: its contract is the law.
ghost use Rattle.preorder_address.specs.Chains.{DescentsArrive};

/// The levels to a number of a rule are a chain of calls whose last node has that number, counted along the tours, and its label stands
/// there in the rule's value.
pub fn descents_arrive()
    ensures { DescentsArrive }
{}
