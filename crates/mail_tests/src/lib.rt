//! What the readers of a mail's header say of known texts, and of long ones: fields, message identifiers, dates, base subjects.
#![tactic(auto)]

#[cfg(test)]
mod calendar;
#[cfg(test)]
mod fields;
#[cfg(test)]
mod headers;
#[cfg(test)]
mod long;
#[cfg(test)]
mod msg_ids;
#[cfg(test)]
mod sent_dates;
#[cfg(test)]
mod subjects;
