// Runs both waiting lists on the same puts and takes, and compares what they give.
#![tactic(auto)]

mod compare;
mod numbers;
mod run;
mod trial;

use keys::{Distance, Pair};
use std::io;
use trial::report;

fn main(rt: HostRuntime) -> io::Result<()> {
    let by_number = report::<Distance>(rt.alloc(), "distance")?;
    let by_pair = report::<Pair>(rt.alloc(), "pair")?;
    print!(rt; "{by_number}{by_pair}")
}
