// The calls, a method each. A struct that holds a &mut of things and one of the blocks would save each an argument, and cost each two clauses: that both are still the same references.
mod both;
mod place;
mod rows;
mod tables;
