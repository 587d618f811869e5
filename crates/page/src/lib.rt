// Pages: entries in order, as they lie in the 64 words of a block.
#![tactic(auto)]

pub mod child;
pub mod codec;
pub mod entry;
pub mod find;
pub mod kind;
pub mod level;
pub mod page;
pub mod sizes;

pub use child::Child;
pub use codec::Codec;
pub use entry::Pair;
pub use kind::Kind;
pub use kind::row::Rows;
pub use kind::table::Tables;
pub use level::Level;
pub use level::leaves::Leaves;
pub use level::nodes::Nodes;
pub use page::Page;
