mod blockers;
mod lanes;
mod outside;
mod sources;
mod tracker;
mod turns;
