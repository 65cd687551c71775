// Of every public function of every library: two outcomes that meet its contract are equal. No code of its own.
#![tactic(auto)]
