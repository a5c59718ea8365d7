// No code: which rules of a core row are needed for the addresses of its lanes, each by itself, and which follow from the others.
#![tactic(auto)]
