//! Worked examples, random programs beside trees of boxes, and deep nesting.
mod examples;
mod random;
