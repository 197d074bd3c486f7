//! Tests of routes: prefixes, tags and classes. Those of names, export rules, decisions and the route server are rows of
//! `route_cases` and `server_cases`.
#![tactic(auto)]

#[cfg(test)]
mod classes;
#[cfg(test)]
mod prefixes;
#[cfg(test)]
mod tags;
