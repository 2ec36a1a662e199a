//! The fonts and glyphs that pages use, and pages in sections within a budget.
//!
//! A [`Usage`] is a canvas: it is given the marks of pages, and knows which characters they use and what these cost a printer's memory.
//! A [`Planner`] is given the usage of page after page, and puts as many pages into each section as the budget allows:
//!
//! ```text
//! let mut usage = Usage::new(alloc, &fonts)?;
//! let mut planner = Planner::new(alloc, &fonts, 16_000_000, None)?;
//! for page in 0..pages {
//!     usage.clear();
//!     walker.page(&doc, page, &fonts, &mut usage)?;
//!     planner.page(page + 1, &usage, &fonts)?;
//! }
//! let plan = planner.finish();
//! ```
#![tactic(auto)]

mod laws;
mod plan;
mod planner;
mod price;
#[cfg(test)]
mod tests;
mod usage;

pub use laws::sections_are_within;
pub use plan::Plan;
pub use planner::{PlanFault, Planner};
pub use usage::Usage;
