// No code: from a message to a verdict that holds, and from such a verdict to the message's digest.
#![tactic(auto)]
