// Best-first search that settles each node once, over any graph with operator costs and a consistent lower bound: each
// function states theorems and does nothing else.
#![tactic(auto)]

ghost use Rattle.bestfirst.specs.Theorems.{Bounds, Ends, Fails, Finds, LeadsBack, LinksOpen, LinksRelax, LinksStart, Looks, Opens, Settles, Starts, Tabulates, TakesNext};

// The invariant holds at the start.
pub fn start_is_sound()
    ensures { Starts }
{}

// The waiting node of least sum has its least cost.
pub fn settled_is_least()
    ensures { Settles }
{}

// Opening a node keeps the invariant: all edges at once, or the node first and then edge by edge.
pub fn opening_is_sound()
    ensures at_once { Opens }
    ensures node { TakesNext }
    ensures edge { Looks }
{}

// Where nothing waits, just the nodes that are reached and not dead are opened.
pub fn end_is_complete()
    ensures { Ends }
{}

// Every node with a lower sum than the next one's is opened, and no node with a higher one.
pub fn next_bounds()
    ensures { Bounds }
{}

// A goal that is taken first has the least cost of all goals; where nothing waits and none was taken, none is reached.
pub fn goal_is_least()
    ensures found { Finds }
    ensures none { Fails }
{}

// Links lead back from an opened node over a run of its cost.
pub fn links_lead_back()
    ensures { LeadsBack }
{}

// Each step of the search keeps the links.
pub fn links_are_kept()
    ensures start { LinksStart }
    ensures node { LinksOpen }
    ensures edge { LinksRelax }
{}

// A finished search backwards from the targets holds the least costs ahead, and these are a consistent lower bound.
pub fn table_is_exact()
    ensures { Tabulates }
{}
