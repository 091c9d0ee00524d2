// Linear System T itself: its types, its terms and its linear typing rules, as definitions that every other crate cites.
#![tactic(auto)]
