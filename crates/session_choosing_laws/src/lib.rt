// How a session's state and the rules with choosing the application stand to one another: laws alone.

#![tactic(auto)]
