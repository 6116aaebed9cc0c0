// Tests of the job call and of the layers below it. What they expect was worked out from the rules.
#![tactic(auto)]

#[cfg(test)]
mod asking;
#[cfg(test)]
mod cells;
#[cfg(test)]
mod entries;
#[cfg(test)]
mod fields;
#[cfg(test)]
mod indexes;
#[cfg(test)]
mod layers;
#[cfg(test)]
mod limits;
#[cfg(test)]
mod nested;
#[cfg(test)]
mod records;
#[cfg(test)]
mod refusals;
#[cfg(test)]
mod reports;
