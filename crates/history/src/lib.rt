// Any sequence of calls on a desk and changes of its shares, from its opening on (document 01's shares; document 02, vi): specs/Histories
// says what a history is and what is counted from it, specs/Hosts what calls a host makes; proofs/ that no post passes its ceiling, that a
// post below its reserved number is never refused for want of a place, when 18 comes, and when new shares are taken. There is no code here:
// the theorems are about `desk::step` and `desk::change_shares`, and about `host::call` and `host::change_shares` by their contracts alone.
#![tactic(auto)]
