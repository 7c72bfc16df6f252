//! A module a subject. `home_steps` has the home that `leaves` begins with too. `stage` has the world under test, `cues` what is
//! done there, and `evidence` what it leaves.

mod blocks;
mod cues;
mod drains;
mod evidence;
mod home_steps;
mod leaves;
mod lines;
mod mixed;
mod moves;
mod order;
mod queues;
mod samples;
mod scripts;
mod stage;
mod stops;
mod stores;
mod tasks;
mod values;
