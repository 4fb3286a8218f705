//! The tracks of the examples, and trains on them.

mod crowds;
mod desks;
mod faults;
mod gates;
mod memory;
mod publishing;
mod records;
mod replays;
mod scenes;
mod sessions;
mod showing;
mod sweeps;
mod telling;

/// One section, which is locked by one route.
const PLAIN: &str = r#"
format = 1
section = [{ name = "S1", length = 1000, speeds = [[0, 100]], grades = [[0, -5]] }]
group = [{ country = 5, number = 17, section = "S1", offset = 0, nominal = "+" }]
route = [{ name = "R1", legs = ["S1+"] }]
"#;

/// Two sections in a row with a group on each, and a third one apart.
const BRANCH: &str = r#"
format = 1
section = [
  { name = "S1", length = 1000, speeds = [[0, 100]], grades = [[0, -5]] },
  { name = "S2", length = 500, speeds = [[0, 120], [200, 160]], grades = [[0, 3]] },
  { name = "S3", length = 300, speeds = [[0, 40]], grades = [[0, 0]] },
]
link = [{ from = "S1+", to = "S2+" }]
group = [
  { country = 5, number = 17, section = "S1", offset = 0, nominal = "+" },
  { country = 5, number = 18, section = "S2", offset = 100, nominal = "-" },
]
route = [
  { name = "R1", legs = ["S1+"] },
  { name = "R2", after = "S1+", legs = ["S2+"] },
  { name = "R3", legs = ["S2-", "S1-"] },
  { name = "R4", legs = ["S3+"] },
]
"#;

/// A train on the first section.
const ONE_TRAIN: [&str; 2] = ["lock R1", "report 1 5/17 nominal 300 5 5 200 1000"];

/// Two trains on the branch, one behind the other.
const TWO_TRAINS: [&str; 4] = [
    "lock R1",
    "lock R2",
    "report 1 5/17 nominal 300 5 5 200 1000",
    "report 2 5/17 nominal 700 5 5 200 2000",
];
