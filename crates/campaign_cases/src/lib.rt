// Cases worked by hand for sources, campaigns, drawings and surveys: what is answered, and which refusal is given at which place.

#![tactic(auto)]

#[cfg(test)]
mod campaigns;
#[cfg(test)]
mod drawings;
#[cfg(test)]
mod given;
#[cfg(test)]
mod hands;
#[cfg(test)]
mod prints;
#[cfg(test)]
mod source_cases;
#[cfg(test)]
mod surveys;
#[cfg(test)]
mod third;
