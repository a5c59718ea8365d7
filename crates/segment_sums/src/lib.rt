// What a segment's charge is worth, over the tables that the calls make: proofs/Tally.antt, proofs/Segment.antt.
#![tactic(auto)]
