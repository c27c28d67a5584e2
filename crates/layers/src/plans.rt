// What the layers do to the plans of any task: theorems, each named by the contract of a function that does nothing.
ghost use Rattle.layers.specs.Theorems.{BarredPlans, RequiredPlans, BarredBeyond, RequiredBeyond};

// With an operator barred, the plans are those below that do not use it, at the same price.
pub fn barred_plans()
    ensures { BarredPlans }
{}

// With an operator required, the plans are those below that use it, at the same price.
pub fn required_plans()
    ensures { RequiredPlans }
{}

// Barring an operator number that the task lacks alters no plan.
pub fn barred_beyond()
    ensures { BarredBeyond }
{}

// Requiring an operator number that the task lacks leaves no plan.
pub fn required_beyond()
    ensures { RequiredBeyond }
{}
