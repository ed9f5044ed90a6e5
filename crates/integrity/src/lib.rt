// Lists of calls over an accepted program, and the theorem about them (document 01, "Lists of calls").

#![tactic(auto)]
