// The share of the plans that contain the watched operator.
ghost use Rattle.std.specs.Prelude.{◌≡◌};
ghost use Rattle.tally.specs.Share.{shared, Shares};

use crate::pairs::Pair;
use task::{Fault, Kind, Layer};

// The greatest number up to which every whole number is a float.
const EXACT: u64 = 9_007_199_254_740_992;

// "with" divided by "all"; refused where the two numbers are no pair, then where "all" is above 2^53.
pub fn share(pair: Pair) -> Result<f64, Fault>
    ensures value { result ≡ shared pair }
    ensures between { Shares pair result }
{
    if pair.all == 0 || pair.all < pair.with {
        return Err(Layer::Session.fault(Kind::BadNumber, 0));
    }
    if EXACT < pair.all {
        return Err(Layer::Session.fault(Kind::TooMany, 0));
    }
    Ok(pair.with as f64 / pair.all as f64)
}
