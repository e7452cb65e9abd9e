mod parts;
mod query;
mod steps;
mod views;
mod widened;
