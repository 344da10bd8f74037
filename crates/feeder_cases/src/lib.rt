// Cases worked by hand for feeders: their maps, and the files that hold maps.

#![tactic(auto)]

#[cfg(test)]
mod line;
#[cfg(test)]
mod map_cases;
#[cfg(test)]
mod map_files;
